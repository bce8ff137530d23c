// What `slip` says of its own use, line by line: what is wrong with the arguments, and how
// it is used. What is wrong is decided in `asked`; nothing here writes to a file.
#![tactic(auto)]

ghost use Rattle.std.specs.Prelude.{◌≡◌, ◌+◌, ◌≤◌, length};
ghost use Rattle.saying.specs.Saying.{HasRoom, Said};
ghost use Rattle.usage.specs.Usage.{wrong_most, wrong_words, misuse_line, usage_most, usage_line};

use asked::Wrong;
use saying::Line;

// The most bytes that a line on misuse has beside the word that it names.
pub const MISUSE_MOST: usize = 64;

// The most bytes of a line on how `slip` is used,
pub const USAGE_MOST: usize = 96;

// and how many such lines there are.
pub const USAGE_LINES: usize = 11;

// The lines themselves.
const USAGE: [&[u8]; USAGE_LINES] = [
    b"slip measure [FILE]              the columns of a text\n",
    b"slip words [FILE]                its words: start, end, spaces, columns, bytes\n",
    b"slip fill [WIDTH] [FILE]         the text, filled\n",
    b"slip show [WIDTH] [FILE]         the slip as printed, and what the printer drops\n",
    b"slip check [WIDTH] BEFORE AFTER  whether AFTER is BEFORE, well filled\n",
    b"slip help                        these lines\n",
    b"\n",
    b"No FILE, or -, is standard input. No WIDTH is 42 columns.\n",
    b"One word of digits alone is a WIDTH; a file of that name is ./42.\n",
    b"The exit status is 0 where it is done or accepted, 1 where it is refused,\n",
    b"2 where the arguments are wrong, or a file is not read or not written.\n",
];

// What is wrong, up to the word that is.
fn wrong_words(wrong: Wrong) -> &'static [u8]
    ensures value { result.now ≡ wrong_words wrong }
    ensures upper_bound { length result.now ≤ wrong_most }
{
    match wrong {
        Wrong::NoCommand => b"slip: no command is given",
        Wrong::NoSuchCommand => b"slip: no such command: ",
        Wrong::NotWidth => b"slip: not a width: ",
        Wrong::TooFew => b"slip: check takes two texts, BEFORE and AFTER",
        Wrong::TooMany => b"slip: too many arguments, from here on: ",
        Wrong::BothInput => b"slip: standard input is not both texts: ",
        Wrong::TooLong => b"slip: an argument is longer than 4095 bytes",
    }
}

// Adds the line that says what is wrong with the arguments, and names the word.
pub fn misuse_line(line: &mut Line<'_>, wrong: Wrong, word: &[u8])
    requires { HasRoom line.old (wrong_most + length word.now + 1) }
    ensures { Said line.old (misuse_line wrong word.now) line.new }
{
    line.say(wrong_words(wrong));
    line.say(word);
    line.say(b"\n");
}

// Adds a line on how `slip` is used, by its number from 0; nothing where there is none.
pub fn usage_line(line: &mut Line<'_>, k: usize)
    requires { HasRoom line.old usage_most }
    ensures { Said line.old (usage_line k) line.new }
{
    if k < USAGE_LINES {
        line.say(USAGE[k]);
    }
}
