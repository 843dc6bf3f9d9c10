ghost use Rattle.lb_desk_backend.specs.Configured.{OpensAsOneBackend};

/// All backends of the machine that stand for one backend of the configuration are equal.
pub fn configured_backends_open_as_one()
    ensures { OpensAsOneBackend }
{}
