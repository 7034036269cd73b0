//! Laws: what is printed for a statement is read as that statement again.
//!
//! There is no code here. Each function has a law as its contract.
#![tactic(auto)]

ghost use Rattle.read_back.specs.Laws.{CountsReadBack, RowsReadBack, CapPageSlotsReadBack, HeadersReadBack, GptSlotsReadBack, EndpointsReadBack, ProcessesReadBack, RegistersReadBack, CapRegistersReadBack};
ghost use Rattle.read_back.specs.ObjectLaws.{EachIsListed, ObjectsAreListed};

/// Each line that is printed for a page, a capability page, a GPT or an endpoint, and the line of the count of any
/// object, is read as the statement of what it was printed for. Capabilities are read without their counts.
pub fn objects_read_back()
    ensures counts { CountsReadBack }
    ensures rows { RowsReadBack }
    ensures cap_page_slots { CapPageSlotsReadBack }
    ensures headers { HeadersReadBack }
    ensures gpt_slots { GptSlotsReadBack }
    ensures endpoints { EndpointsReadBack }
{}

/// Each line that is printed for a process that runs or was stopped is read as the statement of what it was printed
/// for. A process that waits or is at a fault has no statement, and the address of one that was stopped is not shown.
pub fn processes_read_back()
    ensures processes { ProcessesReadBack }
    ensures registers { RegistersReadBack }
    ensures cap_registers { CapRegistersReadBack }
{}

/// Texts of numbered things are read as their statements, one behind the other.
pub fn texts_list_statements()
    ensures { EachIsListed }
{}

/// All that is printed of the objects of a state is read as statements: of each thing that is not as in the empty object
/// the one that would make it, in the printed order. Of each process it has to be known whether it runs or was stopped.
pub fn objects_are_listed()
    ensures { ObjectsAreListed }
{}
