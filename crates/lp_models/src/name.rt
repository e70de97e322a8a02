//! The names of the models, and what a name stands for.
ghost use Rattle.std.specs.Prelude.{◌≡◌, ◌↔◌};
ghost use Rattle.lp_models.specs.Models.{models, name_of};

/// A consistency model, by its name.
#[derive(Clone, Copy, Debug, PartialEq, Eq)]
pub enum ModelName {
    /// `hybrid`
    Hybrid,
    /// `leave-kernel`
    LeaveKernel,
    /// `all-at-once`
    AllAtOnce,
    /// `immediate`
    Immediate,
    /// `process-group`
    ProcessGroup,
}

/// The value of an expression in which an identifier stands for the model that a [`ModelName`] names, as
/// `with_model!(name, model => run(alloc, model, trace))`. Each model has its own copy of the expression, so nothing is chosen
/// while it runs.
///
/// No other place knows which type has which name: what is done under a name is done by this macro.
#[macro_export]
macro_rules! with_model {
    ($name:expr, $model:ident => $value:expr) => {
        match $name {
            $crate::ModelName::Hybrid => {
                let $model = $crate::Hybrid;
                $value
            }
            $crate::ModelName::LeaveKernel => {
                let $model = $crate::LeaveKernel;
                $value
            }
            $crate::ModelName::AllAtOnce => {
                let $model = $crate::AllAtOnce;
                $value
            }
            $crate::ModelName::Immediate => {
                let $model = $crate::Immediate;
                $value
            }
            $crate::ModelName::ProcessGroup => {
                let $model = $crate::ProcessGroup;
                $value
            }
        }
    };
}

impl ModelName {
    /// All models, in the order in which they are compared, which is that of their numbers in C.
    pub fn all() -> [ModelName; 5]
        ensures { result ≡ models }
    {
        [
            ModelName::Hybrid,
            ModelName::LeaveKernel,
            ModelName::AllAtOnce,
            ModelName::Immediate,
            ModelName::ProcessGroup,
        ]
    }

    /// The model that a text names; None where it is no model's name, letter by letter.
    pub fn read(text: &str) -> Option<ModelName>
        ensures { (model : ModelName) → (result ≡ Some model) ↔ (text.now ≡ name_of model) }
    {
        match text {
            "hybrid" => Some(ModelName::Hybrid),
            "leave-kernel" => Some(ModelName::LeaveKernel),
            "all-at-once" => Some(ModelName::AllAtOnce),
            "immediate" => Some(ModelName::Immediate),
            "process-group" => Some(ModelName::ProcessGroup),
            _ => None,
        }
    }

    /// The name, as it is printed.
    pub fn name(self) -> &'static str
        ensures { result.now ≡ name_of self }
    {
        match self {
            ModelName::Hybrid => "hybrid",
            ModelName::LeaveKernel => "leave-kernel",
            ModelName::AllAtOnce => "all-at-once",
            ModelName::Immediate => "immediate",
            ModelName::ProcessGroup => "process-group",
        }
    }
}
