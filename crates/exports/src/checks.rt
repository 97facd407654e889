// The check table, by its two masks, which may have any bits.

ghost use Rattle.std.specs.Prelude.{◌≡◌};
ghost use Rattle.relay_preflight.specs.Table.{new_table_of, outstanding_of};
ghost use Rattle.relay_preflight.specs.Verdict.{first_blocker_of, blocker_number};
ghost use Rattle.exports.specs.Checks.{masks, set_masks};

use relay_preflight::{CheckId, CheckTable, arm_check_table};

// Both masks in one number, the required one in the upper half.
fn masks_of(t: CheckTable) -> u64
    ensures { result ≡ masks t }
{
    u64::from(t.required) * 0x1_0000_0000 + u64::from(t.passed)
}

// The masks after `CheckTable::set`, where `pass` is true if it is 1; from check 21 on they are as they were.
// A number and no `bool`: C could hand over a byte that is none.
#[tactic(auto, unfolding(crate::specs::Checks::set_masks))]
#[unsafe(no_mangle)]
pub extern "C" fn bartsemmo_set(required: u32, passed: u32, id: u32, pass: u32) -> u64
    ensures { result ≡ set_masks required passed id pass }
{
    let t = CheckTable::new(required, passed);
    masks_of(CheckId::try_from(id).map_or(t, |id| t.set(id, pass == 1)))
}

// `CheckTable::outstanding`.
#[unsafe(no_mangle)]
pub extern "C" fn bartsemmo_outstanding(required: u32, passed: u32) -> u32
    ensures { result ≡ outstanding_of (new_table_of required passed) }
{
    CheckTable::new(required, passed).outstanding()
}

// The number of `arm_check_table`'s blocker, 21 if none.
#[unsafe(no_mangle)]
pub extern "C" fn bartsemmo_blocker(required: u32, passed: u32) -> u32
    ensures { result ≡ blocker_number (first_blocker_of (new_table_of required passed)) }
{
    CheckId::blocker_number(arm_check_table(CheckTable::new(required, passed)))
}
