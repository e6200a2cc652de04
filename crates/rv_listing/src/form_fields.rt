//! All fields of a form of line, up to eight, as a tuple.

ghost use Rattle.std.specs.Prelude.{◌≡◌, ℕ, List, Option, Result};
ghost use Rattle.rv_inst.specs.declared.inst.Inst.{Inst as AnInst};
ghost use Rattle.rv_inst.specs.declared.inst.Line.{Line as ALine};
ghost use Rattle.rv_listing.specs.Tokens.{words_after};
ghost use Rattle.rv_listing.specs.Fields.{done, field, ◌⊛◌};
ghost use Rattle.rv_listing.specs.Forms.{put};
ghost use Rattle.rv_listing.specs.FormFields.{MakesBoxedBy, MakesBy, ReadsFields, ReadsValue, TakesValue};

use crate::fields::{LineError, Token, boxed};
use crate::tokens::next_word;
use rv_inst::{Boxed, Inst, Line};
use std::alloc::Global;

/// One field of a form: a token, or what one word stands for that is put together on the heap.
pub(crate) trait FormField: Drop {
    // What it is in specs/, which a type of its own may have as its only field.
    ghost Value: { Type 0 };

    ghost reads: { List ℕ → Option Value };

    ghost value: { Self → Value };

    fn of_word(alloc: Global, w: &[u8]) -> Result<Self, LineError>
        ensures { ReadsValue result value (reads w.now) };
}

impl<T: Token + Drop> FormField for T {
    ghost Value = { T };

    ghost reads = { T.reads };

    ghost value = { λ x. x };

    #[inline(always)]
    fn of_word(_alloc: Global, w: &[u8]) -> Result<T, LineError> {
        match T::read(w) {
            Some(x) => Ok(x),
            None => Err(LineError::NotAllowed),
        }
    }
}

impl<T: FormField> FormField for Boxed<T> {
    ghost Value = { T.Value };

    ghost reads = { T.reads };

    ghost value = { T.value };

    fn of_word(alloc: Global, w: &[u8]) -> Result<Boxed<T>, LineError> {
        boxed(alloc, T::of_word(alloc, w)?)
    }
}

/// All fields of a form.
pub(crate) trait FormFields: Drop {
    // What makes an instruction of the fields' values.
    ghost Maker: { Type 0 };

    ghost made: { Maker → Self → AnInst };

    // The form's line of these words.
    ghost said: { Maker → List (List ℕ) → Option ALine };

    /// The fields that the words after a name are, where no word is left.
    fn of_words(alloc: Global, rest: &[u8]) -> Result<Self, LineError>
        ensures { ReadsFields result made (λ make. said make (words_after rest.now)) };
}

/// The line of an instruction that `make` makes of the form's fields.
#[inline(never)]
pub(crate) fn put<F: FormFields, M: FnOnce(F) -> Inst>(
    alloc: Global,
    rest: &[u8],
    make: M,
) -> Result<Line, LineError>
    requires { M.IsAlwaysCallable make }
    ensures { MakesBy result (M.post make) F.made (λ make. F.said make (words_after rest.now)) }
{
    let fields = F::of_words(alloc, rest)?;
    Ok(Line::Inst(make(fields)))
}

/// The same, of an instruction that has what `info` makes on the heap.
#[inline(never)]
pub(crate) fn put_boxed<F: FormFields, T: Drop, N: FnOnce(F) -> T, M: FnOnce(Boxed<T>) -> Inst>(
    alloc: Global,
    rest: &[u8],
    info: N,
    make: M,
) -> Result<Line, LineError>
    requires info { N.IsAlwaysCallable info }
    requires make { M.IsAlwaysCallable make }
    ensures { MakesBoxedBy result (N.post info) (M.post make) F.made (λ make. F.said make (words_after rest.now)) }
{
    let fields = F::of_words(alloc, rest)?;
    let info = boxed(alloc, info(fields))?;
    Ok(Line::Inst(make(info)))
}

#[inline(always)]
fn next_form_field<T: FormField>(alloc: Global, rest: &[u8]) -> Result<(T, &[u8]), LineError>
    ensures { TakesValue result T.value (field T.reads (words_after rest.now)) }
{
    let Some((w, rest)) = next_word(rest) else {
        return Err(LineError::NotAllowed);
    };
    let x = T::of_word(alloc, w)?;
    Ok((x, rest))
}

impl FormFields for () {
    ghost Maker = { AnInst };

    ghost made = { λ make x. make };

    ghost said = { λ make. put (done make) };

    #[inline(always)]
    fn of_words(_alloc: Global, rest: &[u8]) -> Result<(), LineError> {
        match next_word(rest) {
            None => Ok(()),
            Some(_) => Err(LineError::NotAllowed),
        }
    }
}

impl<A: FormField> FormFields for (A,) {
    ghost Maker = { A.Value → AnInst };

    ghost made = { λ make x. make (A.value x.0) };

    ghost said = { λ make. put (done make ⊛ A.reads) };

    #[inline(always)]
    fn of_words(alloc: Global, rest: &[u8]) -> Result<(A,), LineError> {
        let (a, rest) = next_form_field(alloc, rest)?;
        match next_word(rest) {
            None => Ok((a,)),
            Some(_) => Err(LineError::NotAllowed),
        }
    }
}

impl<A: FormField, B: FormField> FormFields for (A, B) {
    ghost Maker = { A.Value → B.Value → AnInst };

    ghost made = { λ make x. make (A.value x.0) (B.value x.1) };

    ghost said = { λ make. put (done make ⊛ A.reads ⊛ B.reads) };

    #[inline(always)]
    fn of_words(alloc: Global, rest: &[u8]) -> Result<(A, B), LineError> {
        let (a, rest) = next_form_field(alloc, rest)?;
        let (b, rest) = next_form_field(alloc, rest)?;
        match next_word(rest) {
            None => Ok((a, b)),
            Some(_) => Err(LineError::NotAllowed),
        }
    }
}

impl<A: FormField, B: FormField, C: FormField> FormFields for (A, B, C) {
    ghost Maker = { A.Value → B.Value → C.Value → AnInst };

    ghost made = { λ make x. make (A.value x.0) (B.value x.1) (C.value x.2) };

    ghost said = { λ make. put (done make ⊛ A.reads ⊛ B.reads ⊛ C.reads) };

    #[inline(always)]
    fn of_words(alloc: Global, rest: &[u8]) -> Result<(A, B, C), LineError> {
        let (a, rest) = next_form_field(alloc, rest)?;
        let (b, rest) = next_form_field(alloc, rest)?;
        let (c, rest) = next_form_field(alloc, rest)?;
        match next_word(rest) {
            None => Ok((a, b, c)),
            Some(_) => Err(LineError::NotAllowed),
        }
    }
}

impl<A: FormField, B: FormField, C: FormField, D: FormField> FormFields for (A, B, C, D) {
    ghost Maker = { A.Value → B.Value → C.Value → D.Value → AnInst };

    ghost made = { λ make x. make (A.value x.0) (B.value x.1) (C.value x.2) (D.value x.3) };

    ghost said = { λ make. put (done make ⊛ A.reads ⊛ B.reads ⊛ C.reads ⊛ D.reads) };

    #[inline(always)]
    fn of_words(alloc: Global, rest: &[u8]) -> Result<(A, B, C, D), LineError> {
        let (a, rest) = next_form_field(alloc, rest)?;
        let (b, rest) = next_form_field(alloc, rest)?;
        let (c, rest) = next_form_field(alloc, rest)?;
        let (d, rest) = next_form_field(alloc, rest)?;
        match next_word(rest) {
            None => Ok((a, b, c, d)),
            Some(_) => Err(LineError::NotAllowed),
        }
    }
}

impl<A: FormField, B: FormField, C: FormField, D: FormField, E: FormField> FormFields
    for (A, B, C, D, E) {
    ghost Maker = { A.Value → B.Value → C.Value → D.Value → E.Value → AnInst };

    ghost made = { λ make x. make (A.value x.0) (B.value x.1) (C.value x.2) (D.value x.3) (E.value x.4) };

    ghost said = { λ make. put (done make ⊛ A.reads ⊛ B.reads ⊛ C.reads ⊛ D.reads ⊛ E.reads) };

    #[inline(always)]
    fn of_words(alloc: Global, rest: &[u8]) -> Result<(A, B, C, D, E), LineError> {
        let (a, rest) = next_form_field(alloc, rest)?;
        let (b, rest) = next_form_field(alloc, rest)?;
        let (c, rest) = next_form_field(alloc, rest)?;
        let (d, rest) = next_form_field(alloc, rest)?;
        let (e, rest) = next_form_field(alloc, rest)?;
        match next_word(rest) {
            None => Ok((a, b, c, d, e)),
            Some(_) => Err(LineError::NotAllowed),
        }
    }
}

impl<A: FormField, B: FormField, C: FormField, D: FormField, E: FormField, F: FormField> FormFields
    for (A, B, C, D, E, F) {
    ghost Maker = { A.Value → B.Value → C.Value → D.Value → E.Value → F.Value → AnInst };

    ghost made = { λ make x. make (A.value x.0) (B.value x.1) (C.value x.2) (D.value x.3) (E.value x.4) (F.value x.5) };

    ghost said = { λ make. put (done make ⊛ A.reads ⊛ B.reads ⊛ C.reads ⊛ D.reads ⊛ E.reads ⊛ F.reads) };

    #[inline(always)]
    fn of_words(alloc: Global, rest: &[u8]) -> Result<(A, B, C, D, E, F), LineError> {
        let (a, rest) = next_form_field(alloc, rest)?;
        let (b, rest) = next_form_field(alloc, rest)?;
        let (c, rest) = next_form_field(alloc, rest)?;
        let (d, rest) = next_form_field(alloc, rest)?;
        let (e, rest) = next_form_field(alloc, rest)?;
        let (f, rest) = next_form_field(alloc, rest)?;
        match next_word(rest) {
            None => Ok((a, b, c, d, e, f)),
            Some(_) => Err(LineError::NotAllowed),
        }
    }
}

impl<
    A: FormField,
    B: FormField,
    C: FormField,
    D: FormField,
    E: FormField,
    F: FormField,
    G: FormField,
> FormFields for (A, B, C, D, E, F, G) {
    ghost Maker = { A.Value → B.Value → C.Value → D.Value → E.Value → F.Value → G.Value → AnInst };

    ghost made = { λ make x. make (A.value x.0) (B.value x.1) (C.value x.2) (D.value x.3) (E.value x.4) (F.value x.5) (G.value x.6) };

    ghost said = { λ make. put (done make ⊛ A.reads ⊛ B.reads ⊛ C.reads ⊛ D.reads ⊛ E.reads ⊛ F.reads ⊛ G.reads) };

    #[inline(always)]
    fn of_words(alloc: Global, rest: &[u8]) -> Result<(A, B, C, D, E, F, G), LineError> {
        let (a, rest) = next_form_field(alloc, rest)?;
        let (b, rest) = next_form_field(alloc, rest)?;
        let (c, rest) = next_form_field(alloc, rest)?;
        let (d, rest) = next_form_field(alloc, rest)?;
        let (e, rest) = next_form_field(alloc, rest)?;
        let (f, rest) = next_form_field(alloc, rest)?;
        let (g, rest) = next_form_field(alloc, rest)?;
        match next_word(rest) {
            None => Ok((a, b, c, d, e, f, g)),
            Some(_) => Err(LineError::NotAllowed),
        }
    }
}

impl<
    A: FormField,
    B: FormField,
    C: FormField,
    D: FormField,
    E: FormField,
    F: FormField,
    G: FormField,
    H: FormField,
> FormFields for (A, B, C, D, E, F, G, H) {
    ghost Maker = { A.Value → B.Value → C.Value → D.Value → E.Value → F.Value → G.Value → H.Value → AnInst };

    ghost made = { λ make x. make (A.value x.0) (B.value x.1) (C.value x.2) (D.value x.3) (E.value x.4) (F.value x.5) (G.value x.6) (H.value x.7) };

    ghost said = { λ make. put (done make ⊛ A.reads ⊛ B.reads ⊛ C.reads ⊛ D.reads ⊛ E.reads ⊛ F.reads ⊛ G.reads ⊛ H.reads) };

    #[inline(always)]
    fn of_words(alloc: Global, rest: &[u8]) -> Result<(A, B, C, D, E, F, G, H), LineError> {
        let (a, rest) = next_form_field(alloc, rest)?;
        let (b, rest) = next_form_field(alloc, rest)?;
        let (c, rest) = next_form_field(alloc, rest)?;
        let (d, rest) = next_form_field(alloc, rest)?;
        let (e, rest) = next_form_field(alloc, rest)?;
        let (f, rest) = next_form_field(alloc, rest)?;
        let (g, rest) = next_form_field(alloc, rest)?;
        let (h, rest) = next_form_field(alloc, rest)?;
        match next_word(rest) {
            None => Ok((a, b, c, d, e, f, g, h)),
            Some(_) => Err(LineError::NotAllowed),
        }
    }
}
