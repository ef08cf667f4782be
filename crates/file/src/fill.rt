// The writing pass: parts of a good file go into lent slices.
ghost use Rattle.std.specs.Prelude.{◌≡◌, ◌+◌, ◌*◌, ◌≤◌, ◌<◌, length, drop};
ghost use Rattle.std.proofs.lemmas.List.Edits.{sets};
ghost use Rattle.file.specs.Inner.{strided, words_at, session_words};

use sections::bytes::word_from;

// n bytes, each `stride` after the one before.
fn fill_bytes(to: &mut [u8], file: &[u8], at: usize, stride: usize, n: usize)
    requires { (1 ≤ stride) × (n ≤ length to.old) × (at + n * stride ≤ length file.now) }
    ensures { to.new ≡ sets to.old 0 (strided stride n (drop at file.now)) }
{
    // `to.iter_mut().take(n).zip(file[at..].iter().step_by(stride))` is one line, but has four parts for these two steps.
    let mut p = at;
    for i in 0..n {
        to[i] = file[p];
        p += stride;
    }
}

// m words of a session, from place k on.
fn fill_session(to: &mut [u64], k: usize, file: &[u8], at: usize, m: usize)
    requires { (k + m ≤ length to.old) × (at + 8 * m ≤ length file.now) }
    ensures { to.new ≡ sets to.old k (words_at m (drop at file.now)) }
{
    for i in 0..m {
        to[k + i] = word_from(file, at + 8 * i);
    }
}

// The words of n sessions.
fn fill_words(to: &mut [u64], file: &[u8], at: usize, m: usize, n: usize)
    requires { (m * n ≤ length to.old) × (at + n * (2 + 8 * m) ≤ length file.now) }
    ensures { to.new ≡ sets to.old 0 (session_words m n (drop at file.now)) }
{
    // The place and the offset go on by steps of their own, so no one range gives both.
    let mut k: usize = 0;
    let mut p = at;
    for _ in 0..n {
        fill_session(to, k, file, p + 2, m);
        p = p + 2 + 8 * m;
        k += m;
    }
}

// The sessions' marks, lengths and words: r sessions over m propositions, behind the names section and their count. Where they end.
pub(crate) fn fill_sessions(
    marks: &mut [u8],
    lengths: &mut [u8],
    words: &mut [u64],
    file: &[u8],
    names: usize,
    m: usize,
    r: usize,
) -> usize
    requires { (m ≤ 16) × (r ≤ length marks.old) × (r ≤ length lengths.old) × (m * r ≤ length words.old) × (names + 1 + r * (2 + 8 * m) < length file.now) }
    ensures { (result ≡ names + 1 + r * (2 + 8 * m))
        × (marks.new ≡ sets marks.old 0 (strided (2 + 8 * m) r (drop (names + 1) file.now)))
        × (lengths.new ≡ sets lengths.old 0 (strided (2 + 8 * m) r (drop (names + 1 + 1) file.now)))
        × (words.new ≡ sets words.old 0 (session_words m r (drop (names + 1) file.now))) }
{
    let stride = 2 + 8 * m;
    let at = names + 1;
    fill_bytes(marks, file, at, stride, r);
    fill_bytes(lengths, file, at + 1, stride, r);
    fill_words(words, file, at, m, r);
    at + r * stride
}

// The codes of both groups: u and v of them, each group behind its count.
pub(crate) fn fill_codes(
    unary: &mut [u8],
    binary: &mut [u8],
    file: &[u8],
    at: usize,
    u: usize,
    v: usize,
)
    requires { (u ≤ length unary.old) × (v ≤ length binary.old) × (at + u + 2 + v ≤ length file.now) }
    ensures { (unary.new ≡ sets unary.old 0 (strided 1 u (drop (at + 1) file.now)))
        × (binary.new ≡ sets binary.old 0 (strided 1 v (drop (at + u + 2) file.now))) }
{
    fill_bytes(unary, file, at + 1, 1, u);
    fill_bytes(binary, file, at + u + 2, 1, v);
}
