use std::marker::Brand;

/// Which run a traversal belongs to. It has no content when the program runs: it ties a traversal,
/// wherever it is found, to one query, its seeds, its web and its output.
pub trait Job {
    ghost use Rattle.traverse_core.specs.Run.{Run};

    ghost run: { Run };
}

// A caller of a function over `J: Job` passes `Brand`, and says in its proof which run it stands for.
impl Job for Brand {
    ghost use Rattle.traverse_core.specs.Run.{no_run};

    ghost run = { no_run };
}
