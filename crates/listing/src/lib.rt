// Listings: the lines that are printed of a card.
#![tactic(auto)]

ghost use Rattle.std.specs.Prelude.{◌≡◌, ◌+◌, ◌*◌, ◌≤◌, ◌<◌, length, drop};
ghost use Rattle.std.proofs.lemmas.List.Edits.{sets};
ghost use Rattle.answer.specs.Numbers.{refusal_number};
ghost use Rattle.answer.specs.Report.{report_of};
ghost use Rattle.circuit.specs.Constant.{signed};
ghost use Rattle.query.specs.Outcomes.{building};
ghost use Rattle.listing.specs.Lines.{constant_text, summary_line, refusal_line};
ghost use Rattle.listing.specs.Listing.{listing};
ghost use Rattle.text.specs.Putting.{HasRoom, Adds};
ghost use Rattle.listing.specs.Records.{name_of, operand_of, record_line, record_lines};

use answer::{Refusal, Report};
use records::{Kind, MOST_GATES, RECORD};
use text::Writer;

// The bytes of the longest card.
pub const MOST_CARD: usize = card::HEAD + card::MOST_RECORD * card::MOST_CONDITIONS;

// The bytes of the longest table.
pub const MOST_TABLE: usize = RECORD * (MOST_GATES + 1);

// Room for every listing: a summary has at most 61 bytes, a gate line 21.
pub const MOST_LISTING: usize = 61 + 21 * MOST_GATES;

// The name of the kind that has a number, or no text where none has it.
fn name_of(number: u8) -> &'static [u8]
    ensures { result.now ≡ name_of number }
{
    match Kind::try_from(number) {
        Ok(Kind::Left) => b"LEFT",
        Ok(Kind::Right) => b"RIGHT",
        Ok(Kind::Add) => b"ADD",
        Ok(Kind::Sub) => b"SUB",
        Ok(Kind::Scale) => b"SCALE",
        Ok(Kind::Flip) => b"FLIP",
        Ok(Kind::Mul) => b"MUL",
        Err(_) => b"",
    }
}

// A constant by its sixteen bits, with its sign, after a space. This function and those below put a
// text after what out has.
fn put_constant(out: &mut Writer, b: u32)
    requires { (b < 0x10000) × HasRoom out.old (constant_text (signed b)) }
    ensures { Adds out.old (constant_text (signed b)) out.new }
{
    if b < 0x8000 {
        return out.put_labelled(b" ", b);
    }
    out.put_labelled(b" -", 0x10000 - b);
}

// b of a gate, after a space: of a SCALE a constant, of any other kind a number.
fn put_operand(out: &mut Writer, kind: u8, b: u32)
    requires { (b < 0x10000) × HasRoom out.old (operand_of kind b) }
    ensures { Adds out.old (operand_of kind b) out.new }
{
    if kind == u8::from(Kind::Scale) {
        return put_constant(out, b);
    }
    out.put_labelled(b" ", b);
}

// The line of gate number k, whose record the bytes begin with.
fn put_gate_line(out: &mut Writer, k: u16, bytes: &[u8])
    requires { (8 ≤ length bytes.now) × HasRoom out.old (record_line k bytes.now) }
    ensures { Adds out.old (record_line k bytes.now) out.new }
{
    let a = records::u16_at(bytes, 4) as u32;
    let b = records::u16_at(bytes, 6) as u32;
    out.put_decimal(u32::from(k));
    out.put(b" ");
    out.put(name_of(bytes[2]));
    out.put_labelled(b" ", a);
    put_operand(out, bytes[2], b);
    out.put(b"\n");
}

// The lines of the first count gates of a table.
fn put_gate_lines(out: &mut Writer, table: &[u8], count: u16)
    requires { (8 * (count + 1) ≤ length table.now) × HasRoom out.old (record_lines 0 count (drop 8 table.now)) }
    ensures { Adds out.old (record_lines 0 count (drop 8 table.now)) out.new }
{
    for k in 0..count {
        let start = RECORD * (usize::from(k) + 1);
        put_gate_line(out, k, &table[start..]);
    }
}

// The counts of a table, in a line.
fn put_summary(out: &mut Writer, told: Report)
    requires { HasRoom out.old (summary_line (report_of told)) }
    ensures { Adds out.old (summary_line (report_of told)) out.new }
{
    out.put_labelled(b"gates ", u32::from(told.gates));
    out.put_labelled(b" products ", u32::from(told.products));
    out.put_labelled(b" squares ", u32::from(told.squares));
    out.put_labelled(b" cost ", told.cost.0);
    out.put_labelled(b" depth ", u32::from(told.depth.0));
    out.put(b"\n");
}

// The line of a refusal, by its number.
fn put_refusal(out: &mut Writer, why: Refusal)
    requires { HasRoom out.old (refusal_line (refusal_number why)) }
    ensures { Adds out.old (refusal_line (refusal_number why)) out.new }
{
    let number = u8::from(why);
    out.put_labelled(b"refused ", u32::from(number));
    out.put(b"\n");
}

// Puts the listing of a card at the start of text and answers its length. The table is built in the
// other array. Both arrays have room for every card, by their types, so nothing is asked of the
// caller; and no listing is cut short.
pub fn list_card(card: &[u8], table: &mut [u8; MOST_TABLE], text: &mut [u8; MOST_LISTING]) -> usize
    ensures puts { text.new ≡ sets text.old 0 (listing card.now) }
    ensures ends { result ≡ length (listing card.now) }
    ensures fits { result ≤ length text.new }
    ensures leaves { table.new ≡ (building card.now table.old).lent }
{
    let mut out = Writer {
        bytes: text,
        end: 0,
    };
    match builder::build(card, table) {
        Ok(told) => {
            put_summary(&mut out, told);
            put_gate_lines(&mut out, table, told.gates);
            out.end
        }
        Err(why) => {
            put_refusal(&mut out, why);
            out.end
        }
    }
}
