// The laws of putting, on a contract.
ghost use Rattle.cells.specs.Claims.{PutsAreLawful, PutIsRead, PutsKeepLimits, RefusalsChangeNothing};

/// Does nothing: its contract is what holds of every put into any store.
pub fn puts_keep_the_laws()
    ensures lawful { PutsAreLawful }
    ensures read { PutIsRead }
    ensures limits { PutsKeepLimits }
    ensures refused { RefusalsChangeNothing }
{}
