ghost use Rattle.std.specs.Prelude.{◌≡◌, ◌<◌, ◌≤◌, ◌^◌, ◌*◌, ℕ, List, ◌++◌, ◌-◌, length, take, drop, IsTrue, OnOk, IfOk, IfErr};
ghost use Rattle.std.specs.List.{flat_map};
ghost use Rattle.hex.specs.Hex.{decode_sized, encode_lower};
ghost use Rattle.byteorder.specs.Endian.{little_bytes};
ghost use Rattle.call_log.specs.Put.{AreWords};
ghost use Rattle.log_text.specs.LogText.{number_field, bytes_field, fields};
ghost use Rattle.log_text.specs.Reading.{HasLayout, PutsBody, ReadsBytes, ReadsNumbers, WhenBad};
ghost use Rattle.text_words.specs.Words.{AreBytes, StopsAt, lower};

use crate::text_end::Stop;
use byteorder::{ByteOrder, LittleEndian};
use call_log::Layout;
use text_words::{behind, is_lower, u32_to};

/// Reads a line's fields and puts the body that they spell. Anything may stand behind `log` where they spell none.
pub(crate) fn read_fields(layout: Layout, text: &[u8], log: &mut Vec<u8>) -> Result<(), Stop>
    requires stops { StopsAt 32 text.now }
    requires small { length text.now < 2 ^ 32 }
    ensures found { OnOk result (PutsBody layout text.now log.old.items log.new.items) }
    ensures bad { IfErr result (λ e. WhenBad e ((b : List ℕ) → HasLayout layout b → text.now ≡ fields layout b → ⊥)) }
{
    match layout {
        Layout::Words(n) => read_all_numbers(n as usize, text, log),
        Layout::Counted(n) => read_counted(n as usize, text, log),
        Layout::Tokens => read_tokens(text, log),
        Layout::Free => read_bytes(text, log),
    }
}

fn read_all_numbers(n: usize, text: &[u8], log: &mut Vec<u8>) -> Result<(), Stop>
    requires stops { StopsAt 32 text.now }
    requires few { n < 256 }
    ensures found { OnOk result (PutsBody (Layout.Words n) text.now log.old.items log.new.items) }
    ensures bad { IfErr result (λ e. WhenBad e ((b : List ℕ) → HasLayout (Layout.Words n) b → text.now ≡ fields (Layout.Words n) b → ⊥)) }
{
    let rest = read_numbers(n, text, log)?;
    if !rest.is_empty() {
        return Err(Stop::Bad);
    }
    Ok(())
}

fn read_counted(n: usize, text: &[u8], log: &mut Vec<u8>) -> Result<(), Stop>
    requires stops { StopsAt 32 text.now }
    requires few { n < 256 }
    requires small { length text.now < 2 ^ 32 }
    ensures found { OnOk result (PutsBody (Layout.Counted n) text.now log.old.items log.new.items) }
    ensures bad { IfErr result (λ e. WhenBad e ((b : List ℕ) → HasLayout (Layout.Counted n) b → text.now ≡ fields (Layout.Counted n) b → ⊥)) }
{
    let rest = read_numbers(n, text, log)?;
    put_word(log, byte_count(rest))?;
    read_bytes(rest, log)
}

fn read_tokens(text: &[u8], log: &mut Vec<u8>) -> Result<(), Stop>
    requires stops { StopsAt 32 text.now }
    requires small { length text.now < 2 ^ 32 }
    ensures found { OnOk result (PutsBody Layout.Tokens text.now log.old.items log.new.items) }
    ensures bad { IfErr result (λ e. WhenBad e ((b : List ℕ) → HasLayout Layout.Tokens b → text.now ≡ fields Layout.Tokens b → ⊥)) }
{
    let rest = read_numbers(1, text, log)?;
    if byte_count(rest) % 4 != 0 {
        return Err(Stop::Bad);
    }
    read_bytes(rest, log)
}

// Reads n numbers that stand in front, a blank before each, and puts them as words: what stands behind them.
fn read_numbers<'a>(n: usize, text: &'a [u8], log: &mut Vec<u8>) -> Result<&'a [u8], Stop>
    requires stops { StopsAt 32 text.now }
    ensures found { IfOk result (λ rest. ReadsNumbers n text.now rest.now log.old.items log.new.items × StopsAt 32 rest.now) }
    ensures bad { IfErr result (λ e. WhenBad e ((words rest : List ℕ) → length words ≡ n → AreWords words → StopsAt 32 rest → text.now ≡ flat_map number_field words ++ rest → ⊥)) }
{
    let mut rest = text;
    'numbers: for i in 0..n {
        rest = read_number(rest, log)?;
    }
    Ok(rest)
}

// The same of one number.
fn read_number<'a>(text: &'a [u8], log: &mut Vec<u8>) -> Result<&'a [u8], Stop>
    ensures found { IfOk result (λ rest. ReadsNumbers 1 text.now rest.now log.old.items log.new.items × StopsAt 32 rest.now) }
    ensures bad { IfErr result (λ e. WhenBad e ((w : ℕ) (rest : List ℕ) → w < 2 ^ 32 → StopsAt 32 rest → text.now ≡ number_field w ++ rest → ⊥)) }
{
    let Some(fields) = behind(b' ', text) else {
        return Err(Stop::Bad);
    };
    let Some((number, rest)) = u32_to(b' ', fields) else {
        return Err(Stop::Bad);
    };
    put_word(log, number)?;
    Ok(rest)
}

fn put_word(log: &mut Vec<u8>, word: u32) -> Result<(), Stop>
    ensures put { OnOk result (log.new.items ≡ log.old.items ++ little_bytes 4 word) }
    ensures memory { IfErr result (λ e. e ≡ Stop.NoMemory) }
{
    let mut bytes = [0; 4];
    LittleEndian::write_u32(&mut bytes, word);
    log.extend_from_slice(&bytes)?;
    Ok(())
}

// How many bytes a field of bytes has, where it is one.
fn byte_count(field: &[u8]) -> u32
    requires { length field.now < 2 ^ 32 }
    ensures { (bytes : List ℕ) → field.now ≡ bytes_field bytes → result ≡ length bytes }
{
    (field.len().saturating_sub(1) / 2) as u32
}

// Reads a field of bytes that is all of a text, with its blank, and puts the bytes.
fn read_bytes(text: &[u8], log: &mut Vec<u8>) -> Result<(), Stop>
    ensures found { OnOk result (ReadsBytes text.now log.old.items log.new.items) }
    ensures bad { IfErr result (λ e. WhenBad e ((bytes : List ℕ) → AreBytes bytes → text.now ≡ bytes_field bytes → ⊥)) }
{
    let Some(word) = behind(b' ', text) else {
        return Err(Stop::Bad);
    };
    if word.is_empty() {
        return Err(Stop::Bad);
    }
    if word == b"-".as_slice() {
        return Ok(());
    }
    read_hex(word, log)
}

// Puts the bytes that a word in hexadecimal is.
fn read_hex(word: &[u8], log: &mut Vec<u8>) -> Result<(), Stop>
    ensures found { OnOk result ((bytes : List ℕ) × AreBytes bytes × (word.now ≡ encode_lower bytes) × (log.new.items ≡ log.old.items ++ bytes)) }
    ensures bad { IfErr result (λ e. WhenBad e ((bytes : List ℕ) → AreBytes bytes → word.now ≡ encode_lower bytes → ⊥)) }
{
    if !is_lower(word) {
        return Err(Stop::Bad);
    }
    let from = log.len();
    log.resize(from + word.len() / 2, 0)?;
    if decode_from(from, word, log.as_mut_slice()) {
        Ok(())
    } else {
        Err(Stop::Bad)
    }
}

// Writes the bytes that a word in hexadecimal is over those from a place on; not if they are another number.
fn decode_from(from: usize, word: &[u8], bytes: &mut [u8]) -> bool
    requires { from ≤ length bytes.old }
    ensures kept { take from bytes.new ≡ take from bytes.old }
    ensures decoded { IsTrue result → decode_sized word.now (length bytes.old - from) ≡ Ok (drop from bytes.new) }
    ensures other { (b : List ℕ) → decode_sized word.now (length bytes.old - from) ≡ Ok b → IsTrue result }
{
    match hex::decode_to_slice(word, &mut bytes[from..]) {
        Ok(()) => true,
        Err(_) => false,
    }
}
