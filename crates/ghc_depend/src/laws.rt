// Laws about the definitions, each as the contract of a function.
ghost use Rattle.ghc_depend.specs.Laws.{OrdersHaveOneAnswer, OrdersAreDecided, ConsequencesHaveOneAnswer, LawOfDeletion, LawfulOrderKeepsReplay, ReplayingOrdersAreLawful, StepsSquare, UndosSquare, UndoAndStepSquare, UndoingEnds, OrdersAreSwaps, ReplaysExtend, NeighboursChangePlaces, UndoKeepsReplay, RollKeepsReplay, GoneComeBack, WithoutStepsIsOne, KeepsIsOne};
ghost use Rattle.ghc_depend.specs.Parts.{PartsAreParted, PartsRunAmongOthers, OthersSeeWhatPartsGave, PartsComeTogether, PartsRunAlone, PlacesAreAlone, WrongPartsHaveFaults};
ghost use Rattle.ghc_depend.specs.Slices.{SlicesAreLeast, GoalSlicesAreLeast, SameFromHasTheSameText, ReplayIsOfItsClauses};

/// An order is lawful or has one pair that tells why not, and not both.
pub fn orders_have_one_answer()
    ensures { OrdersHaveOneAnswer }
{}

/// The first consequence of a step, and what goes with it, are determined.
pub fn consequences_have_one_answer()
    ensures { ConsequencesHaveOneAnswer }
{}

/// An order is lawful and puts the records into an order, or has a pair that tells why not.
pub fn orders_are_decided()
    ensures { OrdersAreDecided }
{}

/// *Causal safety*: steps that are closed under consequences can be taken out of the record, and no others, so that the rest replays as recorded.
pub fn law_of_deletion()
    ensures { LawOfDeletion }
{}

/// *Causal consistency*, equivalent runs end alike: the record in a lawful order replays to the same state.
pub fn lawful_order_keeps_replay()
    ensures { LawfulOrderKeepsReplay }
{}

/// *Causal consistency*, runs that end alike are equivalent: an order in which the kept steps replay too, with the effects recorded, is
/// lawful, and leaves the same state.
pub fn replaying_orders_are_lawful()
    ensures { ReplayingOrdersAreLawful }
{}

/// *Square property*, two steps: where two steps are possible, and one of them is so unchanged after the other, both ways round lead to
/// one state.
pub fn steps_square()
    ensures { StepsSquare }
{}

/// *Square property*, two undos: two steps that can be undone are undone in either order, and both ways leave the same steps. So undos are
/// independent.
pub fn undos_square()
    ensures { UndosSquare }
{}

/// *Square property*, an undo and a step: a step that can be undone, and a possible one that does not depend on it, are undone and taken
/// in either order, and both ways leave the same steps.
pub fn undo_and_step_square()
    ensures { UndoAndStepSquare }
{}

/// *Well-foundedness*: each undo leaves fewer kept steps, so no undoing goes on without end.
pub fn undoing_ends()
    ensures { UndoingEnds }
{}

/// *Causal equivalence*: the lawful orders are just those into which swaps of neighbours bring the record, each time of a later step that
/// does not depend on the earlier one.
pub fn orders_are_swaps()
    ensures { OrdersAreSwaps }
{}

/// *Parabolic lemma*: where some steps replay alone, and all of them stand in another replay, its state is reached from theirs by forward
/// steps alone. By the law of deletion one comes to the steps in common by going back.
pub fn replays_extend()
    ensures { ReplaysExtend }
{}

/// Two neighbouring steps, of which the later one does not depend on the earlier one, may change places.
pub fn neighbours_change_places()
    ensures { NeighboursChangePlaces }
{}

/// Without a step that has no consequences, the rest replays.
pub fn undo_keeps_replay()
    ensures { UndoKeepsReplay }
{}

/// Without a step and its consequences, the rest replays.
pub fn roll_keeps_replay()
    ensures { RollKeepsReplay }
{}

/// Steps that were taken out of the record can be taken again at its end, which gives back the old state.
pub fn gone_come_back()
    ensures { GoneComeBack }
{}

/// There is one state without the steps that are gone.
pub fn without_steps_is_one()
    ensures { WithoutStepsIsOne }
{}

/// A journal that takes no number twice tells one kept list and one shelf.
pub fn keeps_is_one()
    ensures { KeepsIsOne }
{}

/// The slice of a variable replays alone, with the effects recorded, and gives the variable the term that it has; each part of the
/// record that does so has the slice.
pub fn slices_are_least()
    ensures { SlicesAreLeast }
{}

/// The slice of a goal replays alone, with the effects recorded, and has the goal with all at which it looks; each part of the
/// record that does so has the slice.
pub fn goal_slices_are_least()
    ensures { GoalSlicesAreLeast }
{}

/// Where whatever a variable reaches has the value that it had, it is printed as it was: so of each variable in the state of its slice alone.
pub fn same_from_has_the_same_text()
    ensures { SameFromHasTheSameText }
{}

/// Steps replay under each program that has the clauses by which they went. So what a variable is, by its slice, rests on the clauses by
/// which the steps of the slice went, and on no other.
pub fn replay_is_of_its_clauses()
    ensures { ReplayIsOfItsClauses }
{}

/// The part of a goal that a step took is that step and the parts of the goals that it made; no step is of two of these.
pub fn parts_are_parted()
    ensures { PartsAreParted }
{}

/// Where no ask reaches into the part of a goal, the part runs among the other steps. It begins with the goal alone, the others add just
/// what the goal was given, and each of its steps is possible in its turn, with the effect recorded.
pub fn parts_run_among_others()
    ensures { PartsRunAmongOthers }
{}

/// Where no ask reaches into the part of a goal, the other steps take no goal that the part made, and read of what it bound only what
/// the goal gave.
pub fn others_see_what_parts_gave()
    ensures { OthersSeeWhatPartsGave }
{}

/// Where no ask reaches into the part of a goal, and what the goal was given did not come of the part, an order is lawful that has first
/// what does not follow from the part, then the part, then the rest.
pub fn parts_come_together()
    ensures { PartsComeTogether }
{}

/// Where no ask reaches into the part of a goal, and what the goal was given did not come of the part, the part runs alone. It begins with
/// the goal and what that was given, has the effects recorded, and gives what it gave.
pub fn parts_run_alone()
    ensures { PartsRunAlone }
{}

/// The slice of a place in a value replays alone, with the effects recorded; the variable reaches the place there, which stands for
/// what it stands for.
pub fn places_are_alone()
    ensures { PlacesAreAlone }
{}

/// *Algorithmic debugging* finds a fault: however goals are judged, the part of a goal that is judged wrong has a step whose goal is
/// judged wrong, and which made no goal that a step took and that is judged wrong.
pub fn wrong_parts_have_faults()
    ensures { WrongPartsHaveFaults }
{}
