// Prints the listing of the card whose bytes are on standard input: its counts and its gates, a line
// each, or the line of its refusal.
#![tactic(auto)]

ghost use Rattle.std.specs.Prelude.{◌≡◌, ◌+◌, length, take};
ghost use Rattle.io.specs.Counts.{IsPrefixLen};
ghost use Rattle.listing.specs.Listing.{listing};
ghost use Rattle.listing.specs.Promises.{most_card};

// The file descriptors of the standard input and output.
const STDIN_FILENO: i32 = 0;

const STDOUT_FILENO: i32 = 1;

// One byte more than the longest card has: longer input is refused as these bytes are.
const INPUT: usize = listing::MOST_CARD + 1;

// Reads the input, as far as there is room.
fn read_input(input: &mut [u8; INPUT]) -> usize
    ensures counts { IsPrefixLen result input.new }
    ensures long { length input.new ≡ most_card + 1 }
{
    io::read_full(STDIN_FILENO, input)
}

// All that stands between reading and writing: puts the listing of the first count bytes of the
// input, or of all where it has fewer, at the start of text, and answers its length.
fn list_read(
    input: &[u8],
    count: usize,
    table: &mut [u8; listing::MOST_TABLE],
    text: &mut [u8; listing::MOST_LISTING],
) -> usize
    ensures listed { take result text.new ≡ listing (take count input.now) }
    ensures counts { IsPrefixLen result text.new }
{
    let read = count.min(input.len());
    listing::list_card(&input[..read], table, text)
}

fn main() {
    let mut input = [0u8; INPUT];
    let mut table = [0u8; listing::MOST_TABLE];
    let mut text = [0u8; listing::MOST_LISTING];
    let count = read_input(&mut input);
    let end = list_read(&input, count, &mut table, &mut text);
    io::write_all(STDOUT_FILENO, &text[..end]);
}
