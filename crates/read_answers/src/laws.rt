//! Replies and asks are read as their claims say.

ghost use Rattle.read_answers.specs.Laws.{
  AnswersAreRead,
  AsksAreRead,
  FailuresAreRead,
  LocalAnswersAreRead,
  RepliesFit,
  StaleAnswersAreRead,
};

/// A client reads in a right answer its own identifier and question, all records of each alias and
/// of the set with the whole seconds that are left, or the SOA of a denial, and nothing else; or
/// its question alone, with TC, over UDP, if the whole has more than 512 octets. The question and
/// the pieces can be written: names are names, numbers fit their fields, and record data has its
/// shapes.
pub fn answers_are_read()
    ensures { AnswersAreRead }
{}

/// A client reads in a right answer with expired data all records of the aliases and of the set.
/// Aliases held by its question have the whole seconds left; of the pieces after them, expired ones
/// have 30 seconds (RFC 8767 4), and living ones the seconds left. Or its question alone, as above.
pub fn stale_answers_are_read()
    ensures { StaleAnswersAreRead }
{}

/// A client reads in a right denial by a route the records of the aliases, RCODE 3 and no SOA; or
/// its question alone, as above.
pub fn local_answers_are_read()
    ensures { LocalAnswersAreRead }
{}

/// A client reads in a right failure its own identifier, opcode and RD, the RCODE of the reason
/// (RFC 1035 4.1.1), its question, unless format or opcode are bad, and no record.
pub fn failures_are_read()
    ensures { FailuresAreRead }
{}

/// A server reads in a right ask the drawn identifier, RD alone, the asked question, and no record.
pub fn asks_are_read()
    ensures { AsksAreRead }
{}

/// A right reply has at most 512 octets over UDP, and 65,535 over TCP (RFC 1035 4.2.1 and 4.2.2),
/// if the question's name is a name.
pub fn replies_fit()
    ensures { RepliesFit }
{}
