// What the lexer promises of its tokens, tested.
ghost use Rattle.std.specs.Prelude.{◌≡◌, true, false};
ghost use Rattle.quanta_cursor.specs.Tokens.{Closed};

use quanta_token::token;

// Whether these are whole tokens of known kinds, with Eof at the end and only there.
#[tactic(auto, using(crate::proofs::Closing::closing))]
pub fn is_closed(tokens: &[u32]) -> bool
    ensures closed { result ≡ true → Closed tokens.now }
    ensures fact { result ≡ false → Closed tokens.now → ⊥ }
{
    let count = tokens.len() / 3;
    if count == 0 || count >= 4294967296 || tokens.len() != count * 3 {
        return false;
    }
    let last = count - 1;
    for i in 0..last {
        let kind = tokens[i * 3];
        if kind == 0 || kind >= token::EOF {
            return false;
        }
    }
    tokens[last * 3] == token::EOF
}
