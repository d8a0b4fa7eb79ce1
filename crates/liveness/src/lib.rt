// The last-use list: for each gate the number of the last gate that reads it.
#![tactic(auto)]

ghost use Rattle.std.specs.Prelude.{◌≡◌, ◌++◌, ◌≤◌, length, drop};
ghost use Rattle.circuit.specs.LastUse.{finding_last_uses};
ghost use Rattle.circuit.specs.Reading.{reading};
ghost use Rattle.liveness.specs.Listed.{listed_answer};
ghost use Rattle.liveness.specs.UsesIn.{uses_in};

use answer::Refusal;
use reader::Table;

// Enters the last uses of a table that was read. A later reader's number replaces an earlier one's,
// and what no gate reads keeps its own.
fn enter_uses(table: Table<'_>, list: &mut [u16])
    requires { table.outline.gates ≤ length list.old }
    ensures { list.new ≡ uses_in (reading table.entry.bytes.now) ++ drop table.entry.outline.gates list.old }
{
    for number in 0..table.outline.gates {
        let k = usize::from(number);
        records::enter_operands(table.record(k), number, list);
        list[k] = number;
    }
}

// The last use of each gate at the start of the list and the gate count as the answer, or a refusal,
// which leaves the list as it is.
pub fn last_uses(table: &[u8], list: &mut [u16]) -> Result<u16, Refusal>
    ensures answers { listed_answer result ≡ (finding_last_uses table.now list.old).answer }
    ensures leaves { list.new ≡ (finding_last_uses table.now list.old).lent }
{
    let read = reader::read_table(table)?;
    let count = read.outline.gates;
    if list.len() < usize::from(count) {
        return Err(Refusal::LastUseListTooShort);
    }
    enter_uses(read, list);
    Ok(count)
}
