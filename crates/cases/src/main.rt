// Reads a case script from standard input and prints what the operations answer, a line a case, for
// comparison with the stored output.
#![tactic(auto)]

ghost use Rattle.std.specs.Prelude.{◌≤◌};
ghost use Rattle.cases.specs.declared.TheConstants.{PRINTED};
ghost use Rattle.script.specs.declared.TheConstants.{LIST};

use answer::{Depth, Refusal, Report};
use script::{Command, LIST, TABLE};
use within::Offered;

// The file descriptors of the standard input and output.
const STDIN_FILENO: i32 = 0;

const STDOUT_FILENO: i32 = 1;

// The longest script and the other areas, in bytes.
const SCRIPT: usize = 400000;

const WORK: usize = 8200;

const DIGITS: usize = 32;

// The use area, in entries of two bytes.
const USES: usize = 8200;

// Room for any line of a script with its answer.
const PRINTED: usize = SCRIPT + 256;

// More lent bytes than this are told by their checksum.
const SHOWN: usize = 40;

// A list that a line gives.
#[derive(Drop)]
struct Bytes {
    bytes: [u8; LIST],
    count: usize,
    ghost within: { count ≤ LIST },
}

impl Bytes {
    // The list that a word of a line is, by the word's number.
    fn read(line: &[u8], number: usize) -> Bytes {
        let mut bytes = [0; LIST];
        let count = script::put_list(script::word(line, number), &mut bytes);
        Bytes { bytes, count }
    }

    fn all(&self) -> &[u8] {
        &self.bytes[..self.count]
    }
}

// A number in which every byte counts.
fn checksum(bytes: &[u8]) -> u64 {
    let mut sum = 1;
    for byte in bytes {
        sum = (257 * sum + u64::from(*byte)) % 65521;
    }
    sum
}

// A line as it is printed. Each function puts text after the text so far, as far as there is room.
#[derive(Drop)]
struct Out {
    bytes: [u8; PRINTED],
    end: usize,
    ghost within: { end ≤ PRINTED },
}

impl Out {
    fn put_byte(&mut self, byte: u8) {
        if self.end < PRINTED {
            self.bytes[self.end] = byte;
            self.end += 1;
        }
    }

    fn put(&mut self, text: &[u8]) {
        for byte in text {
            self.put_byte(*byte);
        }
    }

    fn put_number(&mut self, number: u64) {
        let mut text = [0; 20];
        let count = io::decimal(number, &mut text);
        self.put(&text[..count]);
    }

    fn put_named(&mut self, name: &[u8], number: u64) {
        self.put(name);
        self.put_number(number);
    }

    fn put_hex(&mut self, bytes: &[u8]) {
        for byte in bytes {
            self.put_byte(script::hex_symbol(*byte / 16));
            self.put_byte(script::hex_symbol(*byte));
        }
    }

    fn put_bytes(&mut self, bytes: &[u8]) {
        if bytes.is_empty() {
            self.put_byte(b'-');
        } else {
            self.put_hex(bytes);
        }
    }

    fn put_lent(&mut self, bytes: &[u8]) {
        self.put(b", lent ");
        if bytes.len() <= SHOWN {
            self.put_bytes(bytes);
        } else {
            self.put_named(b"checksum ", checksum(bytes));
        }
    }

    // Entries as two bytes each, the low one first.
    fn put_lent_entries(&mut self, list: &[u16]) {
        let mut bytes = [0; 2 * USES];
        for (pair, entry) in bytes.chunks_exact_mut(2).zip(list) {
            let [low, high] = entry.to_le_bytes();
            pair[0] = low;
            pair[1] = high;
        }
        let end = 2 * list.len().min(USES);
        self.put_lent(&bytes[..end]);
    }

    fn put_refusal(&mut self, why: Refusal) {
        self.put_named(b"refused ", u64::from(u8::from(why)));
    }

    fn put_counts(&mut self, told: Report) {
        self.put_named(b"gates ", u64::from(told.gates));
        self.put_named(b" products ", u64::from(told.products));
        self.put_named(b" squares ", u64::from(told.squares));
        self.put_named(b" cost ", u64::from(told.cost.0));
        self.put_named(b" depth ", u64::from(told.depth.0));
    }

    fn put_report(&mut self, answer: Result<Report, Refusal>) {
        match answer {
            Ok(told) => self.put_counts(told),
            Err(why) => self.put_refusal(why),
        }
    }

    fn put_done(&mut self, answer: Result<(), Refusal>) {
        match answer {
            Ok(()) => self.put(b"done"),
            Err(why) => self.put_refusal(why),
        }
    }

    fn put_value<N: Into<u64>>(&mut self, name: &[u8], answer: Result<N, Refusal>) {
        match answer {
            Ok(value) => self.put_named(name, value.into()),
            Err(why) => self.put_refusal(why),
        }
    }

    fn put_part(&mut self, which: u64, told: Report) {
        self.put_named(b"part ", which);
        self.put_named(b" length ", 8 * (u64::from(told.gates) + 1));
        self.put_byte(b' ');
        self.put_counts(told);
    }

    fn put_offered(&mut self, answer: Result<Offered, Refusal>) {
        match answer {
            Ok(Offered::First(told)) => self.put_part(1, told),
            Ok(Offered::Second(told)) => self.put_part(2, told),
            Err(why) => self.put_refusal(why),
        }
    }

    fn print(&self) {
        io::write_all(STDOUT_FILENO, &self.bytes[..self.end]);
    }
}

fn forecast(line: &[u8], out: &mut Out) {
    let card = Bytes::read(line, 1);
    out.put_report(forecast::forecast(card.all()));
}

fn build(line: &[u8], table: &mut [u8], out: &mut Out) {
    let card = Bytes::read(line, 2);
    out.put_report(builder::build(card.all(), table));
    out.put_lent(table);
}

fn build_within(line: &[u8], first: &mut [u8], area: &mut [u8], out: &mut Out) {
    let card = Bytes::read(line, 4);
    let cap = Depth(script::word_of(script::word(line, 1)));
    let room = script::room_of(script::word(line, 3), area);
    let second = &mut area[..room];
    out.put_offered(within::build_within(card.all(), cap, first, second));
    out.put_lent(first);
    out.put_lent(second);
}

fn begin(line: &[u8], state: &mut [u16; 24], table: &mut [u8], out: &mut Out) {
    let prime = script::byte_of(script::word(line, 1));
    let weight = script::byte_of(script::word(line, 2));
    out.put_done(packing::begin(state, prime, weight, table));
    out.put_lent(table);
}

fn add(line: &[u8], state: &mut [u16; 24], table: &mut [u8], out: &mut Out) {
    let condition = Bytes::read(line, 1);
    out.put_done(packing::add(state, condition.all(), table));
    out.put_lent(table);
}

fn finish(state: &mut [u16; 24], table: &mut [u8], out: &mut Out) {
    out.put_report(packing::finish(state, table));
    out.put_lent(table);
}

fn trim(table: &[u8], out: &mut Out) {
    out.put_named(b"length ", checker::trim(table).len() as u64);
}

fn run(line: &[u8], table: &[u8], area: &mut [u8], out: &mut Out) {
    let left = Bytes::read(line, 2);
    let right = Bytes::read(line, 3);
    let room = script::room_of(script::word(line, 1), area);
    let work = &mut area[..room];
    let answer = runner::run(table, left.all(), right.all(), work);
    out.put_value(b"output ", answer);
    out.put_lent(work);
}

fn last_uses(line: &[u8], table: &[u8], area: &mut [u16], out: &mut Out) {
    let room = script::room_of(script::word(line, 1), area);
    let list = &mut area[..room];
    out.put_value(b"gates ", liveness::last_uses(table, list));
    out.put_lent_entries(list);
}

fn encode(line: &[u8], area: &mut [u8], out: &mut Out) {
    let prime = script::byte_of(script::word(line, 1));
    let count = script::number_of(script::word(line, 2)) as usize;
    let number = script::number_of(script::word(line, 3));
    let room = script::room_of(script::word(line, 4), area);
    let digits = &mut area[..room];
    out.put_done(coding::encode(prime, count, number, digits));
    out.put_lent(digits);
}

fn decode(line: &[u8], out: &mut Out) {
    let digits = Bytes::read(line, 2);
    let prime = script::byte_of(script::word(line, 1));
    out.put_value(b"number ", coding::decode(prime, digits.all()));
}

// The areas that the commands work on. The current table is the first bytes of its area.
#[derive(Drop)]
struct Areas {
    table: [u8; TABLE],
    current: usize,
    second: [u8; TABLE],
    state: [u16; 24],
    work: [u8; WORK],
    uses: [u16; USES],
    digits: [u8; DIGITS],
}

impl Areas {
    // The current length after a command.
    fn next_length(&self, command: Option<Command>, line: &[u8]) -> usize {
        match command {
            Some(Command::Build | Command::Cut) => {
                script::room_of(script::word(line, 1), &self.table)
            }
            Some(Command::BuildWithin) => script::room_of(script::word(line, 2), &self.table),
            Some(Command::Table) => script::cut(script::word(line, 1).len() / 2, &self.table),
            _ => self.current,
        }
    }

    fn set_byte(&mut self, line: &[u8]) {
        let place = script::number_of(script::word(line, 1)) as usize;
        if place < TABLE {
            self.table[place] = script::byte_of(script::word(line, 2));
        }
    }

    fn put_answer(&mut self, command: Option<Command>, line: &[u8], out: &mut Out) {
        let end = script::cut(self.current, &self.table);
        let area = &mut self.table[..];
        let table = &mut area[..end];
        match command {
            Some(Command::Forecast) => forecast(line, out),
            Some(Command::Build) => build(line, table, out),
            Some(Command::BuildWithin) => build_within(line, table, &mut self.second, out),
            Some(Command::Begin) => begin(line, &mut self.state, table, out),
            Some(Command::Add) => add(line, &mut self.state, table, out),
            Some(Command::Finish) => finish(&mut self.state, table, out),
            Some(Command::Check) => out.put_report(checker::check(table)),
            Some(Command::Trim) => trim(table, out),
            Some(Command::Run) => run(line, table, &mut self.work, out),
            Some(Command::LastUses) => last_uses(line, table, &mut self.uses, out),
            Some(Command::Encode) => encode(line, &mut self.digits, out),
            Some(Command::Decode) => decode(line, out),
            _ => out.put(b"malformed"),
        }
    }

    // Prints the line as it stands, and the answer.
    fn print_answer(&mut self, command: Option<Command>, line: &[u8], out: &mut Out) {
        out.end = 0;
        out.put(line);
        out.put(b": ");
        self.put_answer(command, line, out);
        out.put_byte(b'\n');
        out.print();
    }

    fn carry_out(&mut self, line: &[u8], out: &mut Out) {
        let command = script::command_of(line);
        self.current = self.next_length(command, line);
        match command {
            Some(Command::Table) => {
                script::put_list(script::word(line, 1), &mut self.table);
            }
            Some(Command::Set) => self.set_byte(line),
            Some(Command::Cut) => {}
            Some(Command::Swap) => self.table.swap_with_slice(&mut self.second),
            _ => self.print_answer(command, line, out),
        }
    }
}

fn run_script(script: &[u8]) {
    let mut out = Out {
        bytes: [0; PRINTED],
        end: 0,
    };
    let mut areas = Areas {
        table: [7; TABLE],
        current: 0,
        second: [5; TABLE],
        state: [0; 24],
        work: [9; WORK],
        uses: [9; USES],
        digits: [7; DIGITS],
    };
    for line in script.split_inclusive(|symbol| *symbol == b'\n') {
        areas.carry_out(line.strip_suffix(b"\n").unwrap_or(line), &mut out);
    }
}

fn main() {
    let mut script = [0; SCRIPT];
    let count = io::read_full(STDIN_FILENO, &mut script);
    run_script(&script[..count]);
}
