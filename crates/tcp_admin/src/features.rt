//! Features.

ghost use Rattle.std.specs.Prelude.{◌≡◌};
ghost use Rattle.tcp_admin.specs.Features.{feature_got, feature_in, feature_of, feature_set, features_set, told_when_got, told_when_set};

use crate::answer::check_length;
use crate::controller::Controller;
use crate::fields::u32_at;
use tcp_pdus::ENTRY_BYTES;
use zone_state::Status;

/// NSQA and NCQA, zero-based: 8 I/O queues are allocated (NVMe Base 2.0, 5.27.1.5).
const QUEUES_ALLOCATED: u32 = 0x0007_0007;

/// The features that there are (NVMe Base 2.0, 5.27.1).
#[derive(Clone, Copy, Debug, PartialEq, Eq)]
pub(crate) enum Feature {
    /// Number of Queues.
    NumberOfQueues,
    /// Asynchronous Event Configuration.
    AsynchronousEventConfiguration,
    /// Keep Alive Timer.
    KeepAliveTimer,
}

impl Feature {
    /// The feature with an identifier, if there is one.
    fn of(fid: u8) -> Option<Feature>
        ensures { result ≡ feature_of fid }
    {
        match fid {
            0x07 => Some(Feature::NumberOfQueues),
            0x0B => Some(Feature::AsynchronousEventConfiguration),
            0x0F => Some(Feature::KeepAliveTimer),
            _ => None,
        }
    }

    /// The feature that a Set Features or Get Features names.
    fn read(entry: &[u8; ENTRY_BYTES]) -> Result<Feature, Status>
        ensures { result ≡ feature_in entry.now }
    {
        Feature::of(entry[40]).ok_or(Status::INVALID_FIELD_IN_COMMAND)
    }

    /// Dword 0 of the completion once it is set.
    fn told_when_set(self) -> u32
        ensures { result ≡ told_when_set self }
    {
        match self {
            Feature::NumberOfQueues => QUEUES_ALLOCATED,
            Feature::AsynchronousEventConfiguration | Feature::KeepAliveTimer => 0,
        }
    }
}

impl Controller {
    /// Executes a Set Features, and gives Dword 0 of the completion.
    ///
    /// # Errors
    ///
    /// Invalid Field in Command where there is no such feature; nothing has changed then.
    pub(crate) fn set_features(&mut self, entry: &[u8; ENTRY_BYTES]) -> Result<u32, Status>
        ensures state { self.new ≡ (features_set entry.now self.old).0 }
        ensures told { result ≡ (features_set entry.now self.old).1 }
    {
        let feature = Feature::read(entry)?;
        self.set_feature(feature, u32_at(entry, 44));
        Ok(feature.told_when_set())
    }

    /// Sets a feature.
    fn set_feature(&mut self, feature: Feature, value: u32)
        ensures { self.new ≡ feature_set feature value self.old }
    {
        match feature {
            Feature::NumberOfQueues => {}
            Feature::AsynchronousEventConfiguration => self.event_configuration = value,
            Feature::KeepAliveTimer => self.keep_alive = value,
        }
    }

    /// Executes a Get Features, and gives Dword 0 of the completion.
    ///
    /// # Errors
    ///
    /// Invalid Field in Command where there is no such feature; Data SGL Length Invalid where data is wanted.
    pub(crate) fn get_features(&self, entry: &[u8; ENTRY_BYTES]) -> Result<u32, Status>
        ensures { result ≡ feature_got entry.now self.now }
    {
        let feature = Feature::read(entry)?;
        check_length(entry, 0)?;
        Ok(self.told(feature))
    }

    /// What a feature is set to.
    fn told(&self, feature: Feature) -> u32
        ensures { result ≡ told_when_got feature self.now }
    {
        match feature {
            Feature::NumberOfQueues => QUEUES_ALLOCATED,
            Feature::AsynchronousEventConfiguration => self.event_configuration,
            Feature::KeepAliveTimer => self.keep_alive,
        }
    }
}
