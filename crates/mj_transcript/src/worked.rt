//! Worked transcripts, judged once and for all. The functions do nothing.
ghost use Rattle.mj_transcript.specs.Worked.{RequestsAreAnswered, KeptRequestsAreSeen, KeptRequestsAreSeenAtTheEnd, ForeignAnswersAreSeen, SecondAnswersAreSeen, AnswersOfNobodyAreSeen, ChangedRequestsAreSeen, SecondRequestsAreSeen, BusyWorkersAreSeen, UnreadyWorkersAreSeen, LapsedWorkersAreSeen, LateRepliesAreSeen, LaterOwnersAreSeen, WrongMessagesAreSeen, WrongBytesAreSeen, OwnNamesArePassedOver, OtherNamesAreJudged, TwoMessagesAreUnlawful, OldAddressesAreUnlawful, ClosedLanesAreUnlawful};

/// How transcripts are judged that were written out by hand.
pub fn worked_transcripts()
    ensures requests_are_answered { RequestsAreAnswered }
    ensures kept_requests_are_seen { KeptRequestsAreSeen }
    ensures kept_requests_are_seen_at_the_end { KeptRequestsAreSeenAtTheEnd }
    ensures foreign_answers_are_seen { ForeignAnswersAreSeen }
    ensures second_answers_are_seen { SecondAnswersAreSeen }
    ensures answers_of_nobody_are_seen { AnswersOfNobodyAreSeen }
    ensures changed_requests_are_seen { ChangedRequestsAreSeen }
    ensures second_requests_are_seen { SecondRequestsAreSeen }
    ensures busy_workers_are_seen { BusyWorkersAreSeen }
    ensures unready_workers_are_seen { UnreadyWorkersAreSeen }
    ensures lapsed_workers_are_seen { LapsedWorkersAreSeen }
    ensures late_replies_are_seen { LateRepliesAreSeen }
    ensures later_owners_are_seen { LaterOwnersAreSeen }
    ensures wrong_messages_are_seen { WrongMessagesAreSeen }
    ensures wrong_bytes_are_seen { WrongBytesAreSeen }
    ensures own_names_are_passed_over { OwnNamesArePassedOver }
    ensures other_names_are_judged { OtherNamesAreJudged }
    ensures two_messages_are_unlawful { TwoMessagesAreUnlawful }
    ensures old_addresses_are_unlawful { OldAddressesAreUnlawful }
    ensures closed_lanes_are_unlawful { ClosedLanesAreUnlawful }
{}
