//! What is true of two runs over the same requests.
ghost use Rattle.std.specs.Prelude.{◌≡◌, ℕ, List, Option, Some};
ghost use Rattle.list_machine.specs.declared.event.Limits.{Limits};
ghost use Rattle.list_machine.specs.Run.{History};
ghost use Rattle.es_node.specs.declared.run.Status.{Status};
ghost use Rattle.es_rest.specs.Headline.{requests_of};
ghost use Rattle.es_node.specs.Repeats.{EndsItself, HasRoom, NeverWants, ServesAlone, moments_of, responses_of};
ghost use Rattle.es_node.specs.Running.{ServedOne, limits};
ghost use Rattle.es_rest.specs.Talk.{Exchange};

/// With ample memory, and where the history isn't full, the responses are a function of the requests and their moments,
/// and what the command `replay` writes is a function of the bytes that it reads. How often the service tidies up, so how
/// many Quiets stand in the history, changes none of it.
pub fn one_answer()
    ensures responses { (limits : Limits) (history other : History) (served others : List Exchange)
        → ServesAlone limits history served → ServesAlone limits other others
        → requests_of served ≡ requests_of others → moments_of served ≡ moments_of others
        → responses_of served ≡ responses_of others }
    ensures bytes { (bytes written : List ℕ) (left after now later : Option (List ℕ)) (status ended : Status)
        (one : ServedOne (Some bytes) left (Some written) now status)
        (other : ServedOne (Some bytes) after (Some written) later ended)
        → NeverWants one.headline.served → NeverWants other.headline.served
        → HasRoom limits one.history → HasRoom limits other.history
        → EndsItself status → EndsItself ended
        → (now ≡ later) × (status ≡ ended) }
{}
