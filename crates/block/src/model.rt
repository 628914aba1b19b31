// What set-up fixes.
ghost use Rattle.std.specs.Prelude.{◌≡◌};
ghost use Rattle.block.specs.Valid.{is_model};

use names::device::is_device;
use names::model::Model;
use names::rule::is_edition;

// Whether there is such a model.
pub fn is_model(m: Model) -> bool
    ensures { result ≡ is_model m }
{
    ((1 <= m.ports) & (m.ports <= 64)) & (is_edition(m.edition) & is_device(m.device))
}
