use lb_desk_model::Stand;
use lb_types::ServerId;
use std::marker::Model;

/// A server, and the cursor after it was taken.
#[derive(Debug, Drop)]
pub struct Pick {
    pub server: ServerId,
    pub cursor: Option<Stand>,
}

impl Model for Pick {
    ghost use Rattle.lb_desk_model.specs.Picks.{Picked};

    ghost Value = { Picked };

    ghost view = { λ p. record { server = p.server; cursor = p.cursor } };
}
