// The engine as the rules have it, over every list of calls, syncs and stops.
#![tactic(auto)]

ghost use Rattle.history.specs.Sound.{AllSound};
ghost use Rattle.history.specs.Promise.{Promises};
ghost use Rattle.history.specs.Examples.{Examples};
ghost use Rattle.history.specs.Pasts.{EveryPast};

// Events lead only to sound engines.
pub fn always_sound()
    ensures { AllSound }
{}

// What is promised holds whatever has happened. The example has two commits whose line is not by their numbers.
// Every list of commits that a file can hold is one that some events led to.
pub fn promises_stand()
    ensures promises { Promises }
    ensures examples { Examples }
    ensures pasts { EveryPast }
{}
