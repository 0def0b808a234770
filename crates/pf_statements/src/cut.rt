//! Texts cut at a mark.

ghost use Rattle.std.specs.Prelude.{◌≡◌};
ghost use Rattle.std.specs.Option.{option_copied};
ghost use Rattle.pf_addr.specs.Spelling.{cut_at};

/// What is before the first mark, and what after it, if there is one.
#[tactic(auto, using(pf_addr::proofs::Pieces::cut_found, pf_addr::proofs::Pieces::cut_none))]
pub(crate) fn cut(text: &[u8], mark: u8) -> (&[u8], Option<&[u8]>)
    ensures { (result.0.now, option_copied result.1) ≡ cut_at mark text.now }
{
    for (i, b) in text.iter().enumerate() {
        if *b == mark {
            return (&text[..i], Some(&text[i + 1..]));
        }
    }
    (text, None)
}
