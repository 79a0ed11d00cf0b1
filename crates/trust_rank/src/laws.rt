//! Laws about the walk of a reply.

ghost use Rattle.trust_rank.specs.Laws.{PiecesAreWritable, ServersFit, WalkLeads};

/// Aliases lead from the asked name on, all on the asked route, and a last piece closes at the last
/// name; a question for CNAME follows none. Fewer than eight come before a last piece, one to eight
/// lead to a name still to be asked for, and a lame reply carries nothing.
pub fn walk_leads()
    ensures { WalkLeads }
{}

/// The name servers of a reply are NS sets of the asked class, on the asked route, each at or above
/// the asked name.
pub fn servers_fit()
    ensures { ServersFit }
{}

/// The pieces of a reply can be written if the question and the records of its sections can: names
/// are names, and numbers fit their fields.
pub fn pieces_are_writable()
    ensures { PiecesAreWritable }
{}
