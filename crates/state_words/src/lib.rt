// The 16 words in which a C program keeps the state of a search in slices: how a state is written there, and how whatever stands there is read.
#![tactic(auto)]

ghost use Rattle.std.specs.Prelude.{◌≡◌, ◌≤◌, length, get_or};
ghost use Rattle.out.specs.Out.{written, in_order};
ghost use Rattle.slices.specs.Slices.{fresh_state};
ghost use Rattle.state_words.specs.Words.{state_words, first_words, last_words, Narrow, end_read, cursor_read, counts_read, root_read, state_read};
ghost use Rattle.state_words.specs.Written.{StateDone};

use counting::Counts;
use formula::kinds::Node;
use rules::kinds::Place;
use split::Cursor;
use state::{End, State};

// The words of a state.
pub const STATE_WORDS: usize = 16;

// A word, 0 past the end.
fn word(words: &[u64], at: usize) -> u64
    ensures { result ≡ get_or words.now at 0 }
{
    words.get(at).copied().unwrap_or(0)
}

// A number that no end has is read as that of a walk that goes on.
fn end_of(word: u64) -> End
    ensures { result ≡ end_read word }
{
    match word {
        1 => End::Found,
        2 => End::None,
        3 => End::Full,
        _ => End::More,
    }
}

fn cursor_of(words: &[u64]) -> Cursor
    ensures { result ≡ cursor_read words.now }
{
    let left = word(words, 3) as usize;
    let right = word(words, 4) as usize;
    let operator = word(words, 5) as usize;
    let split = word(words, 6) as usize;
    let second = word(words, 7) != 0;
    Cursor {
        split,
        left,
        right,
        operator,
        second,
    }
}

fn counts_of(words: &[u64]) -> Counts
    ensures { result ≡ counts_read words.now }
{
    let kept = word(words, 1) as usize;
    let tried = word(words, 2);
    let dropped = word(words, 13);
    Counts {
        tried,
        kept,
        dropped,
    }
}

fn root_of(words: &[u64]) -> Node
    ensures { result ≡ root_read words.now }
{
    let code = (word(words, 9) % 256) as u8;
    let left = (word(words, 10) % 65536) as u16;
    let right = (word(words, 11) % 65536) as u16;
    let size = (word(words, 12) % 256) as u8;
    Node {
        code,
        left: Place(left),
        right: Place(right),
        size,
    }
}

// The state in the first 16 words, whatever they are; a word past the end is read as 0.
pub fn read(words: &[u64]) -> State
    ensures { result ≡ state_read words.now }
{
    let size = word(words, 0) as usize;
    let at = cursor_of(words);
    let counts = counts_of(words);
    let end = end_of(word(words, 8));
    let root = root_of(words);
    State {
        size,
        at,
        counts,
        end,
        root,
    }
}

// Words 0 to 7.
fn put_first(size: usize, counts: Counts, at: Cursor, words: &mut [u64])
    requires { state_words ≤ length words.old }
    ensures { words.new ≡ written (in_order 0 (first_words size counts at)) words.old }
{
    words[0] = size as u64;
    words[1] = counts.kept as u64;
    words[2] = counts.tried;
    words[3] = at.left as u64;
    words[4] = at.right as u64;
    words[5] = at.operator as u64;
    words[6] = at.split as u64;
    words[7] = u64::from(at.second);
}

// Words 8 to 15. The root's fields fit their kinds.
fn put_rest(end: End, root: Node, dropped: u64, words: &mut [u64])
    requires { state_words ≤ length words.old }
    ensures { Narrow root × (words.new ≡ written (in_order 8 (last_words end root dropped)) words.old) }
{
    words[8] = u64::from(end);
    words[9] = root.code as u64;
    words[10] = root.left.0 as u64;
    words[11] = root.right.0 as u64;
    words[12] = root.size as u64;
    words[13] = dropped;
    words[14] = 0;
    words[15] = 0;
}

// A state in the first 16 words; 3 where there are fewer.
pub fn put(state: State, words: &mut [u64]) -> u64
    ensures { StateDone state words.old result words.new }
{
    if words.len() < STATE_WORDS {
        return 3;
    }
    put_first(state.size, state.counts, state.at, words);
    put_rest(state.end, state.root, state.counts.dropped, words);
    0
}

// A state of which nothing is tried, in the first 16 words; 3 where there are fewer.
pub fn fresh(words: &mut [u64]) -> u64
    ensures { StateDone fresh_state words.old result words.new }
{
    let state = slices::fresh();
    put(state, words)
}
