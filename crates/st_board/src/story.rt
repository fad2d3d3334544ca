//! What a board stands for.
use std::marker::Brand;

/// What a board stands for: what its life is given, and what it opened with. It is known to contracts alone, and takes no
/// memory.
pub trait Story {
    ghost use Rattle.st_model.specs.State.{Given, Opening};
    ghost use Rattle.st_board.specs.Base.{Store};

    ghost given: { Given };

    ghost opening: { Opening };

    ghost store: { Store };
}

impl Story for Brand {
    ghost use Rattle.std.specs.Prelude.{[], true};

    ghost given = { record { log = []; upto = 0; own = []; settings = record { window = 0; patience = 0; seed = 0; swap = 0; limit = 0; quota = 0; block = 0; watches = 0 } } };

    ghost opening = { record { version = 0; available = [] } };

    ghost store = { record { fresh = true; pairs = [] } };
}
