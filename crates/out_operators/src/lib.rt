// Operators at the C boundary: the word of the sequence in the first word of `out`, or a refusal's number.
#![tactic(auto)]

ghost use Rattle.out_operators.specs.Operators.{UnaryDone, BinaryDone};
ghost use Rattle.out_operators.specs.Inner.{SequencePut};

use rules::refusal::Refusal;
use sequence::CharSeq;

// The unary operator of a code on a sequence.
pub fn unary(code: u8, length: u64, word: u64, out: &mut [u64]) -> u64
    ensures { UnaryDone code length word out.old result out.new }
{
    let sequence = CharSeq {
        length: length as usize,
        values: word,
    };
    let answer = operators::apply_unary(code, sequence);
    put(answer, out)
}

// The binary operator of a code on two sequences of one length.
pub fn binary(code: u8, llen: u64, lword: u64, rlen: u64, rword: u64, out: &mut [u64]) -> u64
    ensures { BinaryDone code llen lword rlen rword out.old result out.new }
{
    let left = CharSeq {
        length: llen as usize,
        values: lword,
    };
    let right = CharSeq {
        length: rlen as usize,
        values: rword,
    };
    let answer = operators::apply_binary(code, left, right);
    put(answer, out)
}

// An operator's answer. It is the one whose `out` is looked at last.
fn put(answer: Result<CharSeq, Refusal>, out: &mut [u64]) -> u64
    ensures { SequencePut answer out.old result out.new }
{
    match answer {
        Ok(sequence) => {
            if out.len() < out::OUT_WORDS {
                return 3;
            }
            out[0] = sequence.values;
            0
        }
        Err(refusal) => u8::from(refusal) as u64,
    }
}
