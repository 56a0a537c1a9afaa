//! Writes certificates.
ghost use Rattle.std.specs.Prelude.{◌≡◌, ◌++◌, ◌∷◌, ◌^◌, ◌<◌, [], OnOk, IfOk, IsTrue, codes, length, map};
ghost use Rattle.std.specs.Fmt.{decimal};
ghost use Rattle.std.specs.List.{join_with_byte, list_all};
ghost use Rattle.std.specs.String.{string_bytes};
ghost use Rattle.cert_text.specs.declared.lines.CertLine.{CertLine};
ghost use Rattle.cert_text.specs.Texts.{numbers_text, end_words, lines_text};
ghost use Rattle.cert_text.specs.Certificates.{pair_lines, refutation_lines, two_lines, verdict_lines, parts_lines, has_chains, cert_text};

use itoa::Buffer;
use stale_model::{Bytes, End, Four, Judgement, Memory, Refutation, Try, TwoPart, Verdict};
use std::alloc::{AllocError, Global};

/// Puts numbers behind a text, each after a blank.
///
/// # Errors
/// `AllocError` where memory ran out.
pub fn push_numbers(text: &mut String, numbers: &[u32]) -> Result<(), AllocError>
    ensures { OnOk result (string_bytes text.new
        ≡ string_bytes text.old ++ numbers_text numbers.now) }
{
    let mut buffer = Buffer::new();
    for number in numbers {
        text.push_str(" ")?;
        text.push_str(buffer.format(*number))?;
    }
    Ok(())
}

// Puts a line of a word and numbers behind a text.
fn push_line(text: &mut String, word: &str, numbers: &[u32]) -> Result<(), AllocError>
    ensures { OnOk result (string_bytes text.new
        ≡ string_bytes text.old ++ join_with_byte 32 (word.now ∷ map decimal numbers.now)
        ++ codes "\n") }
{
    text.push_str(word)?;
    push_numbers(text, numbers)?;
    text.push_str("\n")?;
    Ok(())
}

// Puts a line of a word and a number behind a text.
fn push_number(text: &mut String, word: &str, number: u64) -> Result<(), AllocError>
    ensures { OnOk result (string_bytes text.new
        ≡ string_bytes text.old ++ join_with_byte 32 (word.now ∷ map decimal (number ∷ []))
        ++ codes "\n") }
{
    text.push_str(word)?;
    write!(text, " {number}\n")
}

// Puts the end of a try behind a text.
fn push_end(text: &mut String, end: &End) -> Result<(), AllocError>
    ensures { OnOk result (string_bytes text.new
        ≡ string_bytes text.old ++ join_with_byte 32 (end_words end.now)) }
{
    match end {
        End::Hard { p, u } => write!(text, "hard {p} {u}"),
        End::Soft { p, q, q2 } => write!(text, "soft {p} {q} {q2}"),
    }
}

// Puts the line of a try behind a text.
fn push_try(text: &mut String, attempt: &Try) -> Result<(), AllocError>
    ensures { OnOk result (string_bytes text.new
        ≡ string_bytes text.old ++ lines_text (CertLine.Try attempt.now ∷ [])) }
{
    text.push_str("try")?;
    push_numbers(text, attempt.chain.as_slice())?;
    text.push_str(" ")?;
    push_end(text, &attempt.end)?;
    text.push_str("\n")?;
    Ok(())
}

// Puts the lines of tries behind a text.
fn push_tries(text: &mut String, tries: &[Try]) -> Result<(), AllocError>
    ensures { OnOk result (string_bytes text.new
        ≡ string_bytes text.old ++ lines_text (map CertLine.Try tries.now)) }
{
    for attempt in tries {
        push_try(text, attempt)?;
    }
    Ok(())
}

// Puts the line of the pair behind a text, where there is one.
#[tactic(auto, using(crate::proofs::WrittenLines::line_alone))]
fn push_pair(text: &mut String, four: &Option<Four>) -> Result<(), AllocError>
    ensures { OnOk result (string_bytes text.new
        ≡ string_bytes text.old ++ lines_text (pair_lines four.now)) }
{
    match four {
        Some(four) => push_line(text, "pair", &[four.p, four.q, four.q2, four.p2]),
        None => Ok(()),
    }
}

/// Puts the line `order` of these records behind a text.
///
/// # Errors
/// `AllocError` where memory ran out.
#[tactic(auto, using(crate::proofs::WrittenLines::line_alone))]
pub fn push_order(text: &mut String, order: &[u32]) -> Result<(), AllocError>
    ensures { OnOk result (string_bytes text.new
        ≡ string_bytes text.old ++ lines_text (CertLine.Order order.now ∷ [])) }
{
    push_line(text, "order", order)
}

/// Puts the lines of a refutation behind a text: `stuck`, and a line `try` for each try.
///
/// # Errors
/// `AllocError` where memory ran out.
pub fn push_refutation(text: &mut String, refutation: &Refutation) -> Result<(), AllocError>
    ensures { OnOk result (string_bytes text.new
        ≡ string_bytes text.old ++ lines_text (refutation_lines refutation.now)) }
{
    push_line(text, "stuck", refutation.stuck.as_slice())?;
    push_tries(text, refutation.tries.as_slice())
}

// Puts the lines that say that a key is 2-atomic behind a text.
fn push_yes(text: &mut String, order: &[u32]) -> Result<(), AllocError>
    ensures { OnOk result (string_bytes text.new
        ≡ string_bytes text.old ++ lines_text (two_lines (TwoPart.Yes order.now))) }
{
    text.push_str("two yes\n")?;
    push_order(text, order)
}

// Puts the lines that say that it is not behind a text.
fn push_no(text: &mut String, refutation: &Refutation) -> Result<(), AllocError>
    ensures { OnOk result (string_bytes text.new
        ≡ string_bytes text.old ++ lines_text (two_lines (TwoPart.No refutation.now))) }
{
    text.push_str("two no\n")?;
    push_refutation(text, refutation)
}

// Puts the lines that say whether a key is 2-atomic behind a text.
fn push_two(text: &mut String, two: &TwoPart) -> Result<(), AllocError>
    ensures { OnOk result (string_bytes text.new
        ≡ string_bytes text.old ++ lines_text (two_lines two.now)) }
{
    match two {
        TwoPart::Yes(order) => push_yes(text, order.as_slice()),
        TwoPart::No(refutation) => push_no(text, refutation),
    }
}

// Puts the lines of a judgement behind a text.
fn push_judgement(text: &mut String, judgement: &Judgement) -> Result<(), AllocError>
    ensures { OnOk result (string_bytes text.new
        ≡ string_bytes text.old ++ lines_text (verdict_lines (Verdict.Judged judgement.now))) }
{
    push_number(text, "delta", judgement.delta)?;
    push_line(text, "order", judgement.order.as_slice())?;
    push_pair(text, &judgement.four)?;
    push_two(text, &judgement.two)?;
    Ok(())
}

// Puts the lines of a verdict behind a text.
#[tactic(auto, using(crate::proofs::WrittenLines::line_alone))]
fn push_verdict(text: &mut String, verdict: &Verdict) -> Result<(), AllocError>
    ensures { OnOk result (string_bytes text.new
        ≡ string_bytes text.old ++ lines_text (verdict_lines verdict.now)) }
{
    match verdict {
        Verdict::Duplicate { rec } => push_line(text, "duplicate", &[*rec]),
        Verdict::Unmatched { rec } => push_line(text, "unmatched", &[*rec]),
        Verdict::Infinite { rec } => push_line(text, "infinite", &[*rec]),
        Verdict::Judged(judgement) => push_judgement(text, judgement),
    }
}

// Puts the parts of all keys behind a text.
fn push_parts(text: &mut String, verdicts: &[Verdict]) -> Result<(), AllocError>
    ensures { OnOk result (string_bytes text.new
        ≡ string_bytes text.old ++ lines_text (parts_lines 1 verdicts.now)) }
{
    for (place, verdict) in verdicts.iter().enumerate() {
        push_number(text, "key", place as u64 + 1)?;
        push_verdict(text, verdict)?;
    }
    Ok(())
}

// The text of a certificate.
fn cert_text(alloc: Global, verdicts: &[Verdict]) -> Result<String, AllocError>
    ensures { IfOk result (λ text. string_bytes text ≡ cert_text verdicts.now) }
{
    let mut text = String::from_str(alloc, "stale-cert 1\n")?;
    push_parts(&mut text, verdicts)?;
    text.push_str("end\n")?;
    Ok(text)
}

/// The text of a certificate: the header `stale-cert 1`, a part for each verdict, under the numbers of
/// the keys from 1 on, and `end`, each line ended by a line feed. There are fewer than 2^32 verdicts, and
/// each try has a chain that is not empty.
///
/// # Errors
/// `Memory` is the only one.
pub fn write_cert(alloc: Global, verdicts: &[Verdict]) -> Result<Bytes, Memory>
    requires keys { length verdicts.now < 2 ^ 32 }
    requires chains { IsTrue (list_all has_chains verdicts.now) }
    ensures { IfOk result (λ text. text ≡ cert_text verdicts.now) }
{
    match cert_text(alloc, verdicts) {
        Ok(text) => Ok(Bytes::from_vec(text.into_bytes())),
        Err(_) => Err(Memory),
    }
}
