// Where lines go, one behind the other: into a lent buffer, or into the count of their bytes alone. So what measures
// a text is what writes it.
#![tactic(auto)]

ghost use Rattle.std.specs.Prelude.{ℕ, List, [], ◌≡◌, ◌++◌, ◌≤◌, ◌+◌, length, min};
ghost use Rattle.spec_text.specs.WrittenLines.{line_of};
ghost use Rattle.text_lines.specs.Fills.{Fills};

// What takes lines.
pub trait Output {
    // It took bytes.
    ghost Takes: { List ℕ → Self → Self → Type 0 };

    // Takes a line of a first field and numbers.
    fn line(&mut self, first: &[u8], numbers: &[u32])
        requires { (length first.now ≤ 4096) × (length numbers.now ≤ 4096) }
        ensures { Takes (line_of first.now numbers.now) self.old self.new };

    // It takes no bytes by staying as it is,
    ghost nothing: { (x : Self) → Takes [] x x };

    // and bytes one behind the other together.
    ghost then: { (xs ys : List ℕ) (x y z : Self) → Takes xs x y → Takes ys y z → Takes (xs ++ ys) x z };
}

// How many bytes the lines so far have, or the largest number where they are more.
#[derive(Clone, Copy)]
pub struct Count(pub usize);

impl Output for Count {
    ghost use Rattle.std.proofs.Common.{arith};
    ghost use Rattle.std.proofs.lemmas.List.{length-append};

    ghost Takes = { λ xs x y. min y.0 18446744073709551615 ≡ min (x.0 + length xs) 18446744073709551615 };

    fn line(&mut self, first: &[u8], numbers: &[u32]) {
        let length = text_lines::line_length(first.len(), numbers);
        self.0 = self.0.saturating_add(length);
    }

    ghost nothing = { λ x. Prim.omega arith };

    ghost then = { λ xs ys x y z e f. Prim.omega (arith, length-append xs ys) };
}

// A lent buffer, and the place behind the lines so far. A line for which there is no room is left out.
#[derive(Drop)]
pub struct Part<'a> {
    pub buffer: &'a mut [u8],
    pub at: usize,
}

impl<'a> Output for Part<'a> {
    ghost use Rattle.std.proofs.Common.{arith, ◌∙◌, refl};
    ghost use Rattle.std.proofs.lemmas.List.{length-append};
    ghost use Rattle.text_lines.proofs.Fills.{keeps, nothing, then};

    ghost Takes = { λ xs x y.
        (x.at + length xs ≤ length x.buffer.now → Fills xs x.at x.buffer.now y.at y.buffer.now)
        × (y.buffer.ghost_name ≡ x.buffer.ghost_name) };

    // Inlined: the first fields of lines are known where they are written, so that no call is made for each line, and
    // the library for C asks for no memmove.
    #[inline]
    fn line(&mut self, first: &[u8], numbers: &[u32]) {
        let buffer = &mut *self.buffer;
        let length = text_lines::line_length(first.len(), numbers);
        if let Some(room) = buffer.len().checked_sub(self.at)
            && length <= room
        {
            let end = self.at + length;
            text_lines::put_line_to(buffer, self.at, end, first, numbers);
            self.at = end;
        }
    }

    ghost nothing = { λ x. (λ r. nothing x.at x.buffer.now (Prim.omega arith), refl) };

    ghost then = { λ xs ys x y z f g. (
      λ r.
          let one = f.0 (Prim.omega (arith, length-append xs ys)) in
          then one (g.0 (Prim.omega (arith, length-append xs ys, one.next_is, keeps one))),
      g.1 ∙ f.1,
    ) };
}
