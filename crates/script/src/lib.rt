// The lines of a case script: words, numbers and lists, and the command that a line gives. Proved of
// them are safety and bounds; what they answer is compared.
#![tactic(auto)]

ghost use Rattle.std.specs.Prelude.{◌≡◌, ◌≤◌, ◌<◌, length, take};
ghost use Rattle.io.specs.Counts.{IsPrefixLen};

// The table area and the longest list, in bytes.
pub const TABLE: usize = 65600;

pub const LIST: usize = 1024;

// What a line asks for.
#[derive(Clone, Copy, Debug, PartialEq, Eq)]
pub enum Command {
    Forecast,
    Build,
    BuildWithin,
    Begin,
    Add,
    Finish,
    Check,
    Trim,
    Run,
    LastUses,
    Encode,
    Decode,
    Table,
    Set,
    Cut,
    Swap,
}

// What the argument of a command is: a list, or a number and the largest that it may be.
#[derive(Clone, Copy)]
enum Argument {
    List,
    UpTo(u64),
}

const BYTE: Argument = Argument::UpTo(u8::MAX as u64);

const SIXTEEN_BITS: Argument = Argument::UpTo(u16::MAX as u64);

// A count of bytes.
const COUNT: Argument = Argument::UpTo(TABLE as u64);

// A place in the table area.
const PLACE: Argument = Argument::UpTo(TABLE as u64 - 1);

const NUMBER: Argument = Argument::UpTo(u64::MAX);

// A command: its name, and what each of its arguments is.
type Form = (&'static [u8], &'static [Argument], Command);

const FORMS: [Form; 16] = [
    (b"forecast", &[Argument::List], Command::Forecast),
    (b"build", &[COUNT, Argument::List], Command::Build),
    (
        b"build_within",
        &[SIXTEEN_BITS, COUNT, COUNT, Argument::List],
        Command::BuildWithin,
    ),
    (b"begin", &[BYTE, BYTE], Command::Begin),
    (b"add", &[Argument::List], Command::Add),
    (b"finish", &[], Command::Finish),
    (b"check", &[], Command::Check),
    (b"trim", &[], Command::Trim),
    (
        b"run",
        &[COUNT, Argument::List, Argument::List],
        Command::Run,
    ),
    (b"last_uses", &[COUNT], Command::LastUses),
    (b"encode", &[BYTE, COUNT, NUMBER, COUNT], Command::Encode),
    (b"decode", &[BYTE, Argument::List], Command::Decode),
    (b"table", &[Argument::List], Command::Table),
    (b"set", &[PLACE, BYTE], Command::Set),
    (b"cut", &[COUNT], Command::Cut),
    (b"swap", &[], Command::Swap),
];

// So many of the entries, or all where there are fewer.
pub fn cut<T>(count: usize, list: &[T]) -> usize
    ensures upper_bound { result ≤ count }
    ensures prefix_len { (result ≤ length list.now) × (result ≡ length (take result list.now)) }
{
    count.min(list.len())
}

fn is_space(symbol: &u8) -> bool {
    *symbol == b' '
}

// A word by its number, of which the command's is 0; empty where the line has fewer.
pub fn word(line: &[u8], number: usize) -> &[u8] {
    line.split(is_space).nth(number).unwrap_or(b"")
}

// A number with one more digit.
fn append_digit(number: u64, symbol: u8) -> Option<u64> {
    if !symbol.is_ascii_digit() {
        return None;
    }
    number
        .checked_mul(10)?
        .checked_add(u64::from(symbol - b'0'))
}

fn read_number(word: &[u8]) -> Option<u64> {
    if word.is_empty() {
        return None;
    }
    let mut number = 0;
    for symbol in word {
        number = append_digit(number, *symbol)?;
    }
    Some(number)
}

// The number that a word is, or 0.
pub fn number_of(word: &[u8]) -> u64 {
    read_number(word).unwrap_or(0)
}

pub fn byte_of(word: &[u8]) -> u8 {
    u8::try_from(number_of(word)).unwrap_or(u8::MAX)
}

pub fn word_of(word: &[u8]) -> u16 {
    u16::try_from(number_of(word)).unwrap_or(u16::MAX)
}

// So many of the entries as a word says, or all where there are fewer.
pub fn room_of<T>(word: &[u8], list: &[T]) -> usize
    ensures { (result ≤ length list.now) × (result ≡ length (take result list.now)) }
{
    cut(number_of(word) as usize, list)
}

fn is_hex(symbol: &u8) -> bool {
    matches!(*symbol, b'0'..=b'9' | b'A'..=b'F')
}

fn hex_value(symbol: u8) -> u8
    ensures { result < 16 }
{
    match symbol {
        b'0'..=b'9' => symbol - b'0',
        b'A'..=b'F' => symbol - b'A' + 10,
        _ => 0,
    }
}

fn hex_pair(high: u8, low: u8) -> u8 {
    16 * hex_value(high) + hex_value(low)
}

// The symbol of a value's low four bits.
pub fn hex_symbol(value: u8) -> u8 {
    let digit = value % 16;
    if digit < 10 {
        b'0' + digit
    } else {
        b'A' + (digit - 10)
    }
}

fn is_list(word: &[u8]) -> bool {
    if word == b"-".as_slice() {
        return true;
    }
    !word.is_empty() && word.len() <= 2 * LIST && word.len() % 2 == 0 && word.iter().all(is_hex)
}

// Puts a list's bytes at the start of out, as far as they have room, and answers how many it put.
pub fn put_list(word: &[u8], out: &mut [u8]) -> usize
    ensures { IsPrefixLen result out.new }
{
    for (byte, pair) in out.iter_mut().zip(word.chunks_exact(2)) {
        *byte = hex_pair(pair[0], pair[1]);
    }
    cut(word.len() / 2, out)
}

fn fits(argument: Argument, word: &[u8]) -> bool {
    match argument {
        Argument::List => is_list(word),
        Argument::UpTo(most) => read_number(word).is_some_and(|number| number <= most),
    }
}

// Whether a line is a command's name with its arguments.
fn has_form(line: &[u8], form: &Form) -> bool {
    let (name, arguments, _) = *form;
    word(line, 0) == name
        && line.split(is_space).count() == arguments.len() + 1
        && line
            .split(is_space)
            .skip(1)
            .zip(arguments)
            .all(|(word, argument)| fits(*argument, word))
}

// The command that a line gives, or none where it is malformed.
pub fn command_of(line: &[u8]) -> Option<Command> {
    let (_, _, command) = FORMS.iter().find(|form| has_form(line, form))?;
    Some(*command)
}
