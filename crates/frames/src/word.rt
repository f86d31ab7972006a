// Words: a message with its parity behind it.
ghost use Rattle.std.specs.Prelude.{◌≡◌, ◌+◌, ◌≤◌, ◌++◌, length};
ghost use Rattle.coding.specs.Codewords.{parity as parity_of};

use words::encode;

// Writes a word: a message, and its parity behind it.
pub(crate) fn write_word(word: &mut [u8], message: &[u8])
    requires { (1 ≤ length message.now) × (length message.now ≤ 224) × (length word.old ≡ length message.now + 16) }
    ensures { word.new ≡ message.now ++ parity_of message.now }
{
    let (front, parity) = word.split_at_mut(message.len());
    front.copy_from_slice(message);
    let _ = encode(message, parity);
}
