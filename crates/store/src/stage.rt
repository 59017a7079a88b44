// Whether a store has an engine.
ghost use Rattle.std.specs.Prelude.{◌≡◌, if◌then◌else◌};
ghost use Rattle.store.specs.Stages.{is_ready, is_loading};
ghost use Rattle.store.specs.declared.stage.Stage.TheVariants.{Unreadable};

#[derive(Clone, Copy, PartialEq, Eq, Debug)]
pub enum Stage {
    // an engine
    Ready,
    // a file is being read
    Loading,
    // no engine
    Unreadable,
}

impl Stage {
    pub(crate) fn is_ready(self) -> bool
        ensures { result ≡ is_ready self }
    {
        self == Stage::Ready
    }

    pub(crate) fn is_loading(self) -> bool
        ensures { result ≡ is_loading self }
    {
        self == Stage::Loading
    }

    // This stage, where there is room for all versions that an engine may have; else there is no engine.
    pub(crate) fn if_room(self, room: bool) -> Stage
        ensures { result ≡ (if room then self else Unreadable) }
    {
        if room { self } else { Stage::Unreadable }
    }
}
