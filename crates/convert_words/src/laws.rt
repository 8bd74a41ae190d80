//! Laws of conversions. Each function states some in its contract, and does nothing.
ghost use Rattle.convert_words.specs.Converting.{ClaimedStepsMakeNoneDurable, ClaimsMakeNoneDurable, SealsConvert};
ghost use Rattle.convert_words.specs.Laws.{StartsAgree, CallsKeep, ToldWritesKeep, ToldFencesKeep, NeedsKeep, PlacesKeep};
ghost use Rattle.convert_words.specs.Laws.{ClaimsKeep, CopiesKeep, ForwardsKeep, RepairsKeep, SettledSetsAreClosed, SealsKeep};
ghost use Rattle.convert_words.specs.Laws.{SealsMakeDurable, CopiedStoresKeep, OldStoresKeep, OrdinaryStoresKeep};
ghost use Rattle.convert_words.specs.Laws.{DurableStoresKeep, OtherStoresKeep, NewObjectsKeep, AnsweredIsMet, MetLinesGoOn};
ghost use Rattle.convert_words.specs.Laws.{ForwardedQueuesRepair, RepairedLinesGoOn, RepairedObjectsGoOn, RepairedQueuesFlush};

/// Touches, write-backs and fences, and what the queue is told of them.
pub fn calls_of_the_image_keep_agreement()
    ensures calls { CallsKeep }
    ensures written { ToldWritesKeep }
    ensures fenced { ToldFencesKeep }
{}

/// An object is claimed, a line copied, an object forwarded, a line repaired.
pub fn moves_keep_agreement()
    ensures claimed { ClaimsKeep }
    ensures copied { CopiesKeep }
    ensures forwarded { ForwardsKeep }
    ensures repaired { RepairsKeep }
    ensures own { ClaimedStepsMakeNoneDurable }
    ensures none { ClaimsMakeNoneDurable }
{}

/// The start, needs, and how a thread's place and phase go on.
pub fn places_go_on()
    ensures start { StartsAgree }
    ensures needs { NeedsKeep }
    ensures places { PlacesKeep }
    ensures answered { AnsweredIsMet }
    ensures met { MetLinesGoOn }
    ensures to_repair { ForwardedQueuesRepair }
    ensures repaired { RepairedLinesGoOn }
    ensures next { RepairedObjectsGoOn }
    ensures to_flush { RepairedQueuesFlush }
{}

/// A closed set of settled threads is fenced and closed; sealing it makes exactly its objects durable.
pub fn seals_are_fenced_and_closed()
    ensures closed { SettledSetsAreClosed }
    ensures sealed { SealsKeep }
    ensures durable { SealsMakeDurable }
    ensures converts { SealsConvert }
{}

/// New objects and stores of the program, to queued objects, to all others, and to lines of no object.
pub fn stores_keep_agreement()
    ensures copied { CopiedStoresKeep }
    ensures old { OldStoresKeep }
    ensures ordinary { OrdinaryStoresKeep }
    ensures durable { DurableStoresKeep }
    ensures others { OtherStoresKeep }
    ensures new { NewObjectsKeep }
{}
