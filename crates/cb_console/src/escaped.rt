//! How a line shows a text from elsewhere.
ghost use Rattle.std.specs.Prelude.{Some};
ghost use Rattle.cb_console.specs.Escaped.{escaped, escaped_character};

use std::fmt;

/// A text as a line shows it: each control character by its code, as `\u{1b}`, any other character
/// as it is. It therefore stays one line, and can't steer a terminal.
#[derive(Clone, Copy)]
pub struct Escaped<'a>(pub &'a str);

impl<'a> fmt::Display for Escaped<'a> {
    ghost output = { λ text. Some (escaped text.0.now) };

    #[tactic(auto, unfolding(crate::specs::Escaped::escaped))]
    fn fmt<W: fmt::Write>(&self, f: &mut fmt::Formatter<W>) -> fmt::Result {
        for character in self.0.chars() {
            let character = EscapedCharacter(character);
            write!(f, "{character}")?;
        }
        Ok(())
    }
}

/// One character of such a text.
#[derive(Clone, Copy)]
struct EscapedCharacter(char);

impl fmt::Display for EscapedCharacter {
    ghost output = { λ character. Some (escaped_character character.0) };

    #[tactic(auto, using(std::proofs::lemmas::Fmt::hex_byte), unfolding(crate::specs::Escaped::escaped_character, crate::specs::Escaped::two_digits))]
    fn fmt<W: fmt::Write>(&self, f: &mut fmt::Formatter<W>) -> fmt::Result {
        let character = self.0;
        if character.is_control() {
            let code = character as u32;
            write!(f, "\\u{{{code:02x}}}")
        } else {
            write!(f, "{character}")
        }
    }
}
