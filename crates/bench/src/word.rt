// A textbook page's octets coded into a word, and one of them spoiled.
use crate::hex::Hex;
use crate::spoil::spoil;
use words::{encode, is_codeword};

pub const PAGE: &[u8; 36] = b"Chapter 3. Leaves turn light to food";

fn answer(yes: bool) -> &'static str {
    if yes { "yes" } else { "no" }
}

// The page with its parity behind it.
pub(crate) fn page_word() -> [u8; 52] {
    let mut word = [0u8; 52];
    let (message, parity) = word.split_at_mut(36);
    message.copy_from_slice(PAGE);
    let _ = encode(message, parity);
    word
}

pub(crate) fn show_word(rt: &impl Print) -> anyhow::Result<()> {
    let mut word = page_word();
    println!(rt; "A word")?;
    println!(rt; "  message   {}", Hex(PAGE))?;
    println!(rt; "  parity    {}", Hex(&word[36..]))?;
    println!(rt; "  codeword  {}", answer(is_codeword(&word)))?;
    spoil(&mut word, 9, 0x21);
    println!(rt; "  octet 9 spoiled by 21")?;
    println!(rt; "  codeword  {}", answer(is_codeword(&word)))?;
    let mut parity = [0u8; 15];
    if let Err(e) = encode(PAGE, &mut parity) {
        let refusal = e.refusal();
        println!(rt;
            "  a parity buffer of 15 octets: refused by {} at the word coder",
            refusal.number
        )?;
    }
    Ok(())
}
