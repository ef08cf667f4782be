// The tests of session data that search and check share.
ghost use Rattle.std.specs.Prelude.{true, ◌↔◌, IsTrue, All, ◌⊎◌, ◌*◌, ◌≤◌, ◌<◌, length};
ghost use Rattle.words.specs.Word.{width};
ghost use Rattle.rules.specs.Answers.{Tested};
ghost use Rattle.rules.specs.Refusals.{Decided, number_of};
ghost use Rattle.session.specs.Data.{outside_numbers, data_rows};
ghost use Rattle.session.specs.Recording.{recording};
ghost use Rattle.session.specs.Inner.{AllUpTo, WordClear, AllClear};

use rules::refusal::Refusal;
use sequence::CharSeq;

// The largest length, as lengths are lent.
const LENGTH: u8 = sequence::CharSeq::MAX_LENGTH as u8;

// Whether each number is at most `most`.
fn all_up_to(list: &[u8], most: u8) -> bool
    ensures { IsTrue result ↔ All (λ x. x ≤ most) list.now }
{
    list.iter().all(|&x| x <= most)
}

// Whether a word has no bit at or above n.
fn word_clear(word: u64, n: usize) -> bool
    ensures { IsTrue result ↔ WordClear n word }
{
    CharSeq::recorded(n, word).is_ok()
}

// Whether no word of a session of length n has one.
fn session_clear(words: &[u64], n: usize) -> bool
    ensures { IsTrue result ↔ All (λ w. WordClear n w) words.now }
{
    words.iter().all(|&word| word_clear(word, n))
}

// The same of each of r sessions, whose words lie m after m.
fn all_clear(lengths: &[u8], words: &[u64], r: usize, m: usize) -> bool
    requires { (r ≤ length lengths.now) × (m * r ≤ length words.now) × AllUpTo lengths.now r width true }
    ensures { AllClear lengths.now words.now r m result }
{
    for i in 0..r {
        if !session_clear(&words[i * m..i * m + m], lengths[i] as usize) {
            return false;
        }
    }
    true
}

// Whether r or m is outside its numbers.
pub fn outside(r: usize, m: usize) -> bool
    ensures { Tested (outside_numbers r m).given result }
{
    let sessions = (r < 1) | (rules::SESSIONS < r);
    let propositions = (m < 1) | (rules::PROPOSITIONS < m);
    sessions | propositions
}

// Whether one of the slices, by its length, is too short.
fn short(r: usize, m: usize, marks: usize, lengths: usize, words: usize) -> bool
    requires { (outside_numbers r m).given → ⊥ }
    ensures { Tested ((marks < r) ⊎ (lengths < r) ⊎ (words < m * r)) result }
{
    (marks < r) | ((lengths < r) | (words < m * r))
}

// The first row that refuses the data, if one does. A caller with rows of its own puts them between these by the refusal
// alone: Numbers comes before all of them; then its Settings; then its own rooms, which are Room before any other refusal here; then this refusal; then its Code.
pub fn test(r: usize, m: usize, marks: &[u8], lengths: &[u8], words: &[u64]) -> Result<(), Refusal>
    ensures { Decided (data_rows (recording r m marks.now lengths.now words.now)) (number_of result) }
{
    if outside(r, m) {
        return Err(Refusal::Numbers);
    }
    if short(r, m, marks.len(), lengths.len(), words.len()) {
        return Err(Refusal::Room);
    }
    if !all_up_to(&lengths[..r], LENGTH) {
        return Err(Refusal::Length);
    }
    if !all_clear(lengths, words, r, m) {
        return Err(Refusal::Bit);
    }
    if !all_up_to(&marks[..r], 1) {
        return Err(Refusal::Mark);
    }
    Ok(())
}
