//! What becomes of a bag, by the places that were found.
ghost use Rattle.std.specs.Prelude.{◌≡◌};
ghost use Rattle.mit_view.specs.Walks.{whichever};

use mit_path::Fate;

// By the first later place of the target and the first later place of a source.
pub(crate) fn decided(sent: Option<u64>, dropped: Option<u64>, complete: bool) -> Fate
    ensures { result ≡ whichever sent dropped complete }
{
    match (sent, dropped) {
        (Some(sent), Some(dropped)) if dropped < sent => Fate::Drop,
        (Some(_), _) => Fate::Send,
        (None, Some(_)) => Fate::Drop,
        (None, None) if complete => Fate::Drop,
        (None, None) => Fate::Undecided,
    }
}
