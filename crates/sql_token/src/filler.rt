//! Blanks and comments.

ghost use Rattle.std.specs.Prelude.{◌≡◌, ◌≢◌, ◌<◌, ◌≤◌, ◌+◌, length, slice_index, IfSome, IfNone, IsTrue, ◌↔◌};
ghost use Rattle.sql_token.specs.Filler.{BeginsLine, BeginsBlock, EndsBlock, BeginsComment, IsLineComment, IsBlockComment, IsBlankAt, IsGap, IsFiller};
ghost use Rattle.sql_token.specs.Byte.{is_blank};

/// The end of the blanks and comments that begin at the place.
pub fn filler_end(text: &[u8], from: usize) -> usize
    requires { from ≤ length text.now }
    ensures filler { IsFiller text.now from result }
    ensures within { (from ≤ result) × (result ≤ length text.now) }
    ensures no_blank { IsBlankAt text.now result → ⊥ }
    ensures no_comment { BeginsComment text.now result → ⊥ }
{
    let mut at = from;
    while let Some(end) = gap_end(text, at) {
        at = end;
    }
    at
}

/// The end of the one blank or comment that begins at the place.
fn gap_end(text: &[u8], at: usize) -> Option<usize>
    requires { at ≤ length text.now }
    ensures found { IfSome result (λ end. IsGap text.now at end) }
    ensures ascends { IfSome result (λ end. (at < end) × (end ≤ length text.now)) }
    ensures no_blank { IfNone result (IsBlankAt text.now at → ⊥) }
    ensures no_comment { IfNone result (BeginsComment text.now at → ⊥) }
{
    match &text[at..] {
        [b' ' | b'\t' | b'\n' | b'\x0c' | b'\r', ..] => Some(at + 1),
        [b'-', b'-', ..] => Some(line_end(text, at)),
        [b'/', b'*', ..] => Some(block_end(text, at)),
        _ => None,
    }
}

fn line_end(text: &[u8], at: usize) -> usize
    requires { BeginsLine text.now at }
    ensures { IsLineComment text.now at result }
{
    let mut end = at + 2;
    while end < text.len() && text[end] != b'\n' {
        end += 1;
    }
    end
}

fn block_end(text: &[u8], at: usize) -> usize
    requires { BeginsBlock text.now at }
    ensures { IsBlockComment text.now at result }
{
    let mut close = at + 2;
    while close < text.len() {
        if ends_block(text, close) {
            return close + 2;
        }
        close += 1;
    }
    close
}

fn ends_block(text: &[u8], at: usize) -> bool
    requires { at < length text.now }
    ensures { IsTrue result ↔ EndsBlock text.now at }
{
    text[at] == b'*' && at + 1 < text.len() && text[at + 1] == b'/'
}
