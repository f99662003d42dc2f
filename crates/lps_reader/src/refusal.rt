ghost use Rattle.std.specs.Prelude.{◌≡◌, ◌<◌, ◌≤◌, ℕ, List, Some, None, take, length};
ghost use Rattle.lps_grammar.specs.declared.tok.Tok.{Tok};
ghost use Rattle.lps_syntax.specs.Judging.{IsTextVerdict};
ghost use Rattle.lps_reader.specs.Refusing.{IsFirstRefusal, IsJudged, line_at};

use lps_lex::Token;
use lps_syntax::TextVerdict;
use lps_terms::ReadRefused;

/// The first refusal of a text, in the line of its token, or none: from what was judged of its tokens for the grammar,
/// and the place of the first of them that is a variable or a time too many, if there is one. Of tokens with such a place
/// it is enough to have judged those up to and with it. `tokens` are those of the whole text.
pub fn first_refusal(
    verdict: TextVerdict,
    crowded: Option<usize>,
    tokens: &[Token],
) -> Option<ReadRefused>
    ensures { (toks : List Tok) (count : ℕ) → length toks ≡ length tokens.now → IsJudged count crowded toks → IsTextVerdict verdict (take count toks) → IsFirstRefusal result crowded tokens.now toks }
{
    match crowded {
        None => alone(verdict, tokens),
        Some(place) => Some(beside(verdict, place, tokens)),
    }
}

/// What the verdict refuses by itself.
fn alone(verdict: TextVerdict, tokens: &[Token]) -> Option<ReadRefused>
    ensures { (toks : List Tok) → length toks ≡ length tokens.now → IsTextVerdict verdict toks → IsFirstRefusal result None tokens.now toks }
{
    match verdict {
        TextVerdict::Accepted => None,
        TextVerdict::Bad(at) => Some(ReadRefused::BadSyntax {
            line: line_at(tokens, at),
        }),
        TextVerdict::TooLarge(at) => Some(ReadRefused::TermTooLarge {
            line: line_at(tokens, at),
        }),
        TextVerdict::Incomplete => Some(ReadRefused::BadSyntax {
            line: line_at(tokens, tokens.len().saturating_sub(1)),
        }),
    }
}

/// What is refused where a variable too many stands at this place.
fn beside(verdict: TextVerdict, place: usize, tokens: &[Token]) -> ReadRefused
    ensures { (toks : List Tok) (count : ℕ) → place < count → count ≤ length toks → IsTextVerdict verdict (take count toks) → IsFirstRefusal (Some result) (Some place) tokens.now toks }
{
    let crowded = ReadRefused::TooManyVars {
        line: line_at(tokens, place),
    };
    match verdict {
        TextVerdict::Bad(at) if at <= place => ReadRefused::BadSyntax {
            line: line_at(tokens, at),
        },
        TextVerdict::TooLarge(at) if at < place => ReadRefused::TermTooLarge {
            line: line_at(tokens, at),
        },
        TextVerdict::Bad(_) => crowded,
        TextVerdict::TooLarge(_) => crowded,
        TextVerdict::Accepted => crowded,
        TextVerdict::Incomplete => crowded,
    }
}

/// The line of the token at a place, counted from 0, where there is one; else 0.
fn line_at(tokens: &[Token], at: usize) -> u32
    ensures { result ≡ line_at tokens.now at }
{
    match tokens.get(at) {
        Some(token) => token.line,
        None => 0,
    }
}
