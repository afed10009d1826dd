//! What an engine was when its calls began.
use acc_pass::Room;
use std::marker::Brand;

/// What the engine was when it was shared. Each call that shares one picks it.
pub trait Run<D>: Room {
    ghost use Rattle.std.specs.Prelude.{Option};
    ghost use Rattle.acc_engine.specs.Keeping.{Journalled};
    ghost use Rattle.acc_beside.specs.Serving.{Script};

    ghost script: { Script };

    ghost engine: { Option (Journalled D) };
}

impl<D> Run<D> for Brand {
    ghost use Rattle.std.specs.Prelude.{None};
    ghost use Rattle.acc_beside.specs.Serving.{no_script};

    ghost script = { no_script };

    ghost engine = { None };
}
