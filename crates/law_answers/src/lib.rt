//! Each act's reply is the right one: where what holds after each entry holds of the parts, the activity and the journal before an
//! act, and the clocks that it touches are earlier, its reply is that of one list of stamped changes, and each refusal has its cause.
#![tactic(auto)]
