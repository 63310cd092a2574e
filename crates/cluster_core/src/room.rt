use master_part::MasterPart;

/// What a part keeps of memory, for proofs alone: no value of it is made. For how many entries its log
/// has room, for how many versions its store, whether its inbox has room for one more command, and the
/// master's part with all that it has room for.
pub struct PartRoom {
    pub log: u64,
    pub versions: u64,
    pub inbox: bool,
    pub master: MasterPart,
}
