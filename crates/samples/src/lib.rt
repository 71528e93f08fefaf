// 01's samples, and walks back, shown of the definitions by computation: there is no code, and no call.
#![tactic(auto)]
