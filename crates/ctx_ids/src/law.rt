//! That no two ids have one text.
ghost use Rattle.std.specs.Prelude.{◌≡◌, ◌<◌, ◌^◌};
ghost use Rattle.ctx_ids.specs.declared.id.ContextId.{ContextId};
ghost use Rattle.ctx_ids.specs.Ids.{text_of};

/// No two ids have one text, whatever their numbers.
pub fn no_two_ids_have_one_text()
    ensures { (one other : ContextId) → one.number < 2 ^ 64 → other.number < 2 ^ 64 → text_of one ≡ text_of other → one ≡ other }
{}
