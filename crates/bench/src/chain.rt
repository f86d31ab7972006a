// One frame pulled through the whole chain.
use crate::frame::show_frame;
use crate::mend::show_mending;
use crate::session::show_session;
use crate::word::show_word;

pub(crate) fn show_chain(rt: &(impl Print + AllocGlobal)) -> anyhow::Result<()> {
    show_word(rt)?;
    show_mending(rt)?;
    show_frame(rt)?;
    show_session(rt)
}
