//! How many parentheses are open at once.
ghost use Rattle.std.specs.Prelude.{◌≡◌};
ghost use Rattle.rank_text.specs.Checker.Scope.{deepest};

use crate::grammar::Token;

/// The most parentheses that are open at once.
pub(crate) fn deepest(tokens: &[Token]) -> usize
    ensures { result ≡ deepest 0 tokens.now }
{
    let mut open: usize = 0;
    let mut most: usize = 0;
    let mut rest = tokens;
    while let [token, more @ ..] = rest {
        match token {
            Token::OpenParenthesis => open += 1,
            Token::CloseParenthesis => {
                most = most.max(open);
                open = open.saturating_sub(1);
            }
            Token::Keyword(_) | Token::Reduction(_) | Token::Name(_) | Token::Number(_) => {}
            Token::Reading(_) | Token::Operator(_) | Token::OpenBracket | Token::CloseBracket => {}
            Token::Comma | Token::Assign | Token::Any => {}
        }
        rest = more;
    }
    most.max(open)
}
