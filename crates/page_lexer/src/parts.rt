ghost use Rattle.std.specs.Prelude.{◌≡◌, drop};
ghost use Rattle.page_lexer.specs.Parts as spec;

/// The bytes from one place up to, and without, another; of places past the end, as far as there are bytes.
#[tactic(auto, using(std::proofs::lemmas::List::take_min, std::proofs::lemmas::List::drop_min))]
pub fn part(bytes: &[u8], from: usize, to: usize) -> &[u8]
    ensures { result.now ≡ spec.part bytes.now from to }
{
    let rest = behind(bytes, from);
    let (part, _) = rest.split_at(to.saturating_sub(from).min(rest.len()));
    part
}

/// The bytes behind so many.
pub fn behind(bytes: &[u8], count: usize) -> &[u8]
    ensures { result.now ≡ drop count bytes.now }
{
    let (_, rest) = bytes.split_at(count.min(bytes.len()));
    rest
}
