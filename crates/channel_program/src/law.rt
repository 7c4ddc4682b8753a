//! Laws of scripts, for the layers that keep a list of calls and replies.
ghost use Rattle.std.specs.Prelude.{◌≡◌, ◌≤◌, ℕ, Bool, true, false, List, [], ◌∷◌, ◌++◌, Some, None};
ghost use Rattle.channel_commands.specs.Data.{CcwData, ReplyData, break};
ghost use Rattle.channel_commands.specs.declared.call.BreakCause.{BreakCause};
ghost use Rattle.channel_program.specs.Script.{ItemData, Exchange, Standing, at_start, RunsWords, next_call, standing_after, Gives, Follows, FollowsToEnd, commands, CHAIN_LIMIT};

/// A program goes on by its next call, with any reply.
pub fn program_goes_on()
    ensures { (words : List CcwData) (from to : Standing) (xs : List Exchange) (x : Exchange)
        → RunsWords words from xs to → next_call words to ≡ Some x.0
        → RunsWords words from (xs ++ x ∷ []) (standing_after words to x.1) }
{}

/// A program that makes no call is finished, and so is one whose call is a break.
pub fn program_finishes()
    ensures ended { (words : List CcwData) (at : Standing)
        → next_call words at ≡ None → at.word ≡ None }
    ensures broken { (words : List CcwData) (at : Standing) (cause : BreakCause) (reply : ReplyData)
        → next_call words at ≡ Some (break cause) → (standing_after words at reply).word ≡ None }
{}

/// A program never runs more than 2,048 commands.
pub fn commands_are_few()
    ensures { (words : List CcwData) (xs : List Exchange) (to : Standing)
        → RunsWords words at_start xs to → commands xs ≤ CHAIN_LIMIT }
{}

/// Items that are finished go on by another item, which may be finished or not.
pub fn script_goes_on()
    ensures finished { (items : List ItemData) (item : ItemData) (xs ys : List Exchange)
        → FollowsToEnd items xs → Gives item ys true
        → FollowsToEnd (items ++ item ∷ []) (xs ++ ys) }
    ensures begun { (front rest : List ItemData) (item : ItemData) (xs ys : List Exchange)
        (finished : Bool) → FollowsToEnd front xs → Gives item ys finished
        → Follows (front ++ item ∷ rest) (xs ++ ys) }
{}

/// A script that was left within an item isn't followed to its end.
pub fn script_is_left()
    ensures { (front rest : List ItemData) (item : ItemData) (xs ys : List Exchange)
        → FollowsToEnd front xs → Gives item ys false
        → FollowsToEnd (front ++ item ∷ rest) (xs ++ ys) → ⊥ }
{}

/// Items that are all finished are followed.
pub fn finished_script_follows()
    ensures { (items : List ItemData) (xs : List Exchange)
        → FollowsToEnd items xs → Follows items xs }
{}
