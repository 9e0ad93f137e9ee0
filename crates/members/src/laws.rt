// What a look-up amounts to: the function stands for the law that its contract states.
ghost use Rattle.members.specs.Laws.{LookUpsTell};

// In a permitted text of an object, a look-up from its front goes through just that object's members.
pub fn look_ups_tell()
    ensures { LookUpsTell }
{}
