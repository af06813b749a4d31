// The words of a line, and the numbers and octets that they stand for.
use crate::fault::Fault;
use std::alloc::AllocError;

// The most words of a call, and one more: a line that has these has too many, and what follows is not looked at.
pub const MOST_WORDS: usize = 12;

// The most octets of a row.
pub const MOST_OCTETS: usize = 255;

// Whether an octet is a space: every one up to 32, so what ends a line in other systems is one too.
fn is_space(octet: u8) -> bool {
    octet <= 32
}

// The first word and what stands behind it, none where there is no word.
fn first_word(text: &[u8]) -> Option<(&[u8], &[u8])> {
    let begin = text.iter().position(|octet| !is_space(*octet))?;
    let (_, found) = text.split_at(begin);
    let end = found.iter().position(|octet| is_space(*octet));
    Some(found.split_at(end.unwrap_or(found.len())))
}

// The words of a line, at most MOST_WORDS of them. A line to skip, one without words or whose first one begins with #, gives none.
pub fn read_words<'a>(line: &'a [u8], words: &mut Vec<&'a [u8]>) -> Result<(), AllocError> {
    words.clear();
    let mut rest = line;
    for at in 0..MOST_WORDS {
        let Some((word, behind)) = first_word(rest) else {
            break;
        };
        if at == 0 && matches!(word, [b'#', ..]) {
            break;
        }
        words.push(word)?;
        rest = behind;
    }
    Ok(())
}

// A word of decimal digits whose value fits 32 bits. No sign: `parse` would take a +.
pub fn number_of(word: &[u8]) -> Result<u32, Fault> {
    word.iter()
        .try_fold(0u32, |value, octet| {
            let digit = char::from(*octet).to_digit(10)?;
            value.checked_mul(10)?.checked_add(digit)
        })
        .ok_or(Fault::NoCall)
}

// A word of two hexadecimal digits.
pub fn octet_of(word: &[u8]) -> Result<u8, Fault> {
    let [high, low] = word else {
        return Err(Fault::NoCall);
    };
    match (
        char::from(*high).to_digit(16),
        char::from(*low).to_digit(16),
    ) {
        (Some(high), Some(low)) => Ok((high * 16 + low) as u8),
        _ => Err(Fault::NoCall),
    }
}

// A word of pairs of hexadecimal digits, or - for none: at most MOST_OCTETS octets, what is longer is cut there.
pub fn read_octets(word: &[u8], octets: &mut Vec<u8>) -> Result<(), Fault> {
    octets.clear();
    if matches!(word, b"-") {
        return Ok(());
    }
    for digits in word.chunks(2) {
        let octet = octet_of(digits)?;
        if octets.len() < MOST_OCTETS {
            octets.push(octet)?;
        }
    }
    Ok(())
}
