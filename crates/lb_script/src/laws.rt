ghost use Rattle.std.specs.Prelude.{List, ℕ};
ghost use Rattle.lb_acl.specs.Keys.{IsKeyIn};
ghost use Rattle.lb_acl.specs.declared.key.TableType.{TableType};
ghost use Rattle.lb_script.specs.Requests.{key_of_type};

/// A script's keys are those of requests: a word is the key that a table makes of the same text in a request.
pub fn keys_are_those_of_requests()
    ensures { (kind : TableType) (word : List ℕ) → IsKeyIn kind word (key_of_type kind word) }
{}
