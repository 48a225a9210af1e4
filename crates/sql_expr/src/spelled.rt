//! What a tree spells.

ghost use Rattle.std.specs.Prelude.{◌≡◌, ◌++◌, List, OnOk, OnErr, IfOk};
ghost use Rattle.sql_expr.specs.Tokens.{AddsFront};

use sql_token::Token;
use sqlite_items::{Boxed, Items};
use std::alloc::{AllocError, Global};

/// A tree that spells a list of tokens: all that its rule has, in order.
pub trait Spelled {
    ghost use Rattle.sql_token.specs.declared.token.Token.{Token};

    /// The tokens.
    ghost spelled: { Self → List Token };

    /// Adds the tokens at the end. After an error a front of them has been added.
    fn spell(&self, tokens: &mut Vec<Token>) -> Result<(), AllocError>
        ensures added { OnOk result (tokens.new.items ≡ tokens.old.items ++ spelled self.now) }
        ensures front { OnErr result (AddsFront (spelled self.now) tokens.old.items tokens.new.items) };
}

/// Two parts of a tree, one behind the other.
#[derive(Drop)]
pub struct Both<'a, A, B> {
    pub first: &'a A,
    pub second: &'a B,
}

impl<'a, A: Spelled, B: Spelled> Spelled for Both<'a, A, B> {
    ghost spelled = { λ both. A.spelled both.first.now ++ B.spelled both.second.now };

    fn spell(&self, tokens: &mut Vec<Token>) -> Result<(), AllocError> {
        self.first.spell(tokens)?;
        self.second.spell(tokens)
    }
}

/// Three parts of a tree, one behind the other.
#[derive(Drop)]
pub struct Three<'a, A, B, C> {
    pub first: &'a A,
    pub second: &'a B,
    pub third: &'a C,
}

impl<'a, A: Spelled, B: Spelled, C: Spelled> Spelled for Three<'a, A, B, C> {
    ghost spelled = { λ three. A.spelled three.first.now ++ B.spelled three.second.now ++ C.spelled three.third.now };

    fn spell(&self, tokens: &mut Vec<Token>) -> Result<(), AllocError> {
        self.first.spell(tokens)?;
        self.second.spell(tokens)?;
        self.third.spell(tokens)
    }
}

/// Adds the tokens of the parts at the end of the list, in order: `spell_all!(tokens; self.first, self.more)`.
///
/// Of seven parts and more, three are put together at a time, so that the type of all does not grow too deep to be proved.
#[macro_export]
macro_rules! spell_all {
    ($tokens:ident; $whole:expr) => {
        $whole.spell($tokens)
    };
    ($tokens:ident; $first:expr, $second:expr, $third:expr, $d:expr, $e:expr, $f:expr, $g:expr $(, $more:expr)*) => {
        $crate::spell_all!(
            $tokens; $crate::Three { first: &$first, second: &$second, third: &$third }, $d, $e, $f, $g $(, $more)*
        )
    };
    ($tokens:ident; $first:expr, $second:expr $(, $more:expr)*) => {
        $crate::spell_all!($tokens; $crate::Both { first: &$first, second: &$second } $(, $more)*)
    };
}

/// The tokens of the tree, in order.
pub fn tokens_of<T: Spelled>(alloc: Global, tree: &T) -> Result<Vec<Token>, AllocError>
    ensures { IfOk result (λ list. list.items ≡ T.spelled tree.now) }
{
    let mut tokens = Vec::new(alloc);
    tree.spell(&mut tokens)?;
    Ok(tokens)
}

impl Spelled for Token {
    ghost use Rattle.sql_token.specs.Spelled.{one};

    ghost spelled = { one };

    #[tactic(auto, using(crate::proofs::Fronts::front_none))]
    fn spell(&self, tokens: &mut Vec<Token>) -> Result<(), AllocError> {
        tokens.push(*self)?;
        Ok(())
    }
}

impl<T: Spelled> Spelled for &T {
    ghost spelled = { λ tree. T.spelled tree.now };

    fn spell(&self, tokens: &mut Vec<Token>) -> Result<(), AllocError> {
        (**self).spell(tokens)
    }
}

impl<T: Spelled> Spelled for Boxed<T> {
    ghost spelled = { T.spelled };

    fn spell(&self, tokens: &mut Vec<Token>) -> Result<(), AllocError> {
        self.get().spell(tokens)
    }
}

impl<T: Spelled> Spelled for Option<T> {
    ghost use Rattle.sql_token.specs.Spelled.{maybe};

    ghost spelled = { maybe T.spelled };

    #[tactic(auto, using(crate::proofs::Fronts::front_none))]
    fn spell(&self, tokens: &mut Vec<Token>) -> Result<(), AllocError> {
        match self {
            Some(part) => part.spell(tokens),
            None => Ok(()),
        }
    }
}

impl<T: Spelled> Spelled for Items<T> {
    ghost use Rattle.sql_token.specs.Spelled.{flat};

    ghost spelled = { flat T.spelled };

    fn spell(&self, tokens: &mut Vec<Token>) -> Result<(), AllocError> {
        for item in self.as_slice() {
            item.spell(tokens)?;
        }
        Ok(())
    }
}
